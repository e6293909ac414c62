// One task by all four measures, with the answers that the reference in oracle/ gives to it.
use super::check_script;
use std::process::Abort;
use std::test::Fail;

const TASK: &[u8] = b"M 0\n\
    R\n\
    W 5\n\
    Q 1 1 1 658 529 408 504 654 467 429 603\n\
    A 21 6 537 594 563 472 413 574 470 449\n\
    A 4 5 537 594 563 472 413 574 470 449\n\
    A 19 6 529 594 563 464 413 574 470 449\n\
    Q 4 1 1 658 529 408 504 654 467 429 603\n\
    Q 3 1 1 658 529 408 504 654 467 429 603\n\
    Q 33 1 1 658 529 408 504 654 467 429 603\n\
    Q 0 1 1 658 529 408 504 654 467 429 603\n\
    A 37 7 601 679 517 357 502 685 336 525\n\
    A 26 2 588 449 490 595 530 354 557 540\n\
    A 30 2 736 403 292 640 812 248 513 689\n\
    A 28 1 658 529 408 506 654 467 429 603\n\
    A 10 5 656 529 408 504 654 467 429 603\n\
    A 32 4 588 449 490 595 530 354 557 540\n\
    A 5 0 588 449 490 595 530 354 557 540\n\
    A 3 2 537 594 563 464 413 574 470 457\n\
    A 15 5 658 529 408 504 654 467 423 603\n\
    A 42 5 668 432 358 608 770 304 481 758\n\
    A 8 4 603 645 551 401 465 685 365 490\n\
    A 38 0 599 646 536 385 467 706 362 486\n\
    A 22 1 458 497 607 567 340 430 611 377\n\
    A 9 2 734 376 301 654 797 255 521 665\n\
    A 6 3 485 452 641 588 293 410 627 326\n\
    A 0 4 588 449 490 595 530 354 557 540\n\
    A 13 1 537 594 555 464 413 574 470 449\n\
    A 29 4 537 602 563 464 413 574 470 449\n\
    A 40 7 529 594 563 464 413 574 470 449\n\
    A 24 2 715 406 315 615 791 268 504 712\n\
    A 27 0 537 594 563 464 413 582 470 449\n\
    A 2 7 588 449 490 595 530 354 557 540\n\
    A 39 6 447 532 586 549 335 431 596 386\n\
    A 41 5 537 594 563 464 413 574 462 449\n\
    A 36 3 658 529 408 504 654 467 429 612\n\
    A 11 1 442 503 597 569 338 434 621 387\n\
    A 23 5 625 433 426 594 624 336 527 626\n\
    A 35 5 710 412 329 612 790 282 492 730\n\
    A 43 3 491 468 615 566 279 398 638 331\n\
    A 17 0 627 660 541 391 460 710 354 494\n\
    A 18 0 588 449 490 595 530 354 557 540\n\
    A 20 4 583 644 560 395 458 685 361 489\n\
    A 14 3 557 450 545 600 443 371 596 461\n\
    A 7 0 609 645 556 394 472 696 359 477\n\
    A 12 3 658 529 408 504 648 467 429 603\n\
    A 25 2 658 529 399 504 654 467 429 603\n\
    A 16 4 579 653 539 404 455 710 378 468\n\
    A 31 1 658 535 408 504 654 467 429 603\n\
    A 34 3 537 594 563 464 405 574 470 449\n\
    A 33 6 450 510 578 550 380 433 596 384\n\
    A 1 1 459 516 598 559 344 428 600 389\n\
    Q 3 3 2 658 529 408 504 654 467 429 603\n\
    R\n\
    Q 1 1 1 609 650 536 386 471 702 353 497\n\
    Q 2 3 2 605 646 550 396 461 694 365 488\n\
    Q 4 17 1 456 494 606 569 339 430 615 376\n\
    Q 7 1 1 603 645 551 401 465 685 365 490\n\
    Q 11 65535 65535 544 577 568 476 399 565 468 414\n\
    Q 16 5 4 490 470 634 603 301 395 643 334\n\
    Q 22 65535 1 598 663 530 378 482 691 347 507\n\
    Q 32 2 1 530 599 566 465 405 577 466 451\n\
    Q 1 1 1 658 529 408 504 654 467 429 603\n\
    Q 2 1 1 658 529 408 504 654 467 429 603\n\
    Q 4 1 1 658 529 408 504 654 467 429 603\n\
    Q 5 1 1 658 529 408 504 654 467 429 603\n\
    Q 3 65535 1 658 529 408 504 654 467 429 603\n\
    Q 6 3 2 658 529 408 504 654 467 429 603\n\
    Q 1 1 1 588 449 490 595 530 354 557 540\n\
    Q 2 1 1 588 449 490 595 530 354 557 540\n\
    Q 3 17 1 588 449 490 595 530 354 557 540\n\
    Q 5 1 1 588 449 490 595 530 354 557 540\n\
    Q 6 1 1 588 449 490 595 530 354 557 540\n\
    Q 1 1 1 537 594 563 464 413 574 470 449\n\
    Q 7 1 1 537 594 563 464 413 574 470 449\n\
    Q 9 1 1 537 594 563 464 413 574 470 449\n\
    Q 10 1 1 537 594 563 464 413 574 470 449\n\
    Q 9 2 1 537 594 563 464 413 574 470 449\n\
    A 7 0 658 529 408 504 654 467 429 603\n\
    A 240 8 658 529 408 504 654 467 429 603\n\
    A 256 0 658 529 408 504 654 467 429 603\n\
    A 240 0 1024 0 0 0 0 0 0 0\n\
    W 240\n\
    W 256\n\
    Q 3 2 3 658 529 408 504 654 467 429 603\n\
    Q 3 0 0 658 529 408 504 654 467 429 603\n\
    Q 3 1 1 0 0 0 0 0 0 0 1024\n\
    Q 3 1 1 1 2 3 4 5 6 7\n\
    q 3 1 1 1 2 3 4 5 6 7 8\n\
    R 1\n\
    M 0\n\
    \n\
    Q 3 1 65536 1 2 3 4 5 6 7 8\n\
    A 255 0 578 451 467 610 545 323 553 549\n\
    A 254 6 600 528 425 538 632 450 455 547\n\
    A 253 7 527 528 564 450 439 598 465 412\n\
    A 252 7 555 636 564 493 370 566 479 485\n\
    Q 1 1 1 580 454 474 613 547 323 550 547\n\
    Q 6 3 2 598 533 431 543 627 455 461 546\n\
    Q 11 17 1 522 526 570 450 434 593 467 411\n\
    Q 16 1 1 552 631 560 494 371 566 482 491\n\
    W 21\n\
    W 4\n\
    W 19\n\
    W 3\n\
    W 13\n\
    Q 4 1 1 537 594 563 464 413 574 470 449\n\
    Q 5 1 1 537 594 563 464 413 574 470 449\n\
    R\n\
    Q 4 1 1 537 594 563 464 413 574 470 449\n\
    Q 32 3 2 537 594 563 464 413 574 470 449\n\
    Q 3 1 1 578 451 467 610 545 323 553 549\n\
    Q 3 1 1 600 528 425 538 632 450 455 547\n\
    Q 3 1 1 527 528 564 450 439 598 465 412\n";

// The task, with the measure of this number on its first line.
fn check_task(rt: &(impl Abort + AllocGlobal), number: u8, answers: &str) -> Result<(), Fail> {
    let mut text = Vec::new(rt.alloc());
    text.extend_from_slice(b"M ")?;
    text.push(number)?;
    text.extend_from_slice(&TASK[3..])?;
    check_script(rt, &text, answers)
}

#[test]
fn by_block(rt: HostRuntime) -> Result<(), Fail> {
    check_task(
        &rt,
        b'0',
        "M\nR\nE 11\nE 12\nA\nA\nA\nE 12\nQ 6 0 S, full scan 6\nE 9\nE 9\nA\nA\nA\nA\nA\nA\nA\nA\nA\nA\nA\nA\nA\nA\nA\nA\nA\nA\nA\nA\nA\nA\nA\nA\nA\nA\nA\nA\nA\nA\nA\nA\nA\nA\nA\nA\nA\nA\nA\nA\nA\nQ 1 1 N, full scan 1\nR\nQ 0 23 S, full scan 0\nQ 0 30 S, full scan 0\nQ 1 25 S, full scan 1\nQ 0 30 S, full scan 0\nQ 6 32 S, full scan 6\nQ 1 34 N, full scan 1\nQ 4 24 N, full scan 0\nQ 1 29 N, full scan 0\nQ 5 25 C, full scan 5\nQ 1 25 S, full scan 1\nQ 5 25 C, full scan 5\nQ 1 25 S, full scan 1\nQ 1 25 N, full scan 1\nQ 1 25 S, full scan 1\nQ 4 24 C, full scan 4\nQ 4 30 C, full scan 4\nQ 0 29 N, full scan 0\nQ 0 30 C, full scan 0\nQ 0 29 S, full scan 0\nQ 2 40 C, full scan 2\nQ 6 41 C, full scan 6\nQ 6 41 C, full scan 6\nQ 5 30 S, full scan 5\nQ 6 41 N, full scan 6\nE 10\nE 9\nE 9\nE 9\nE 11\nE 9\nE 9\nE 9\nE 9\nE 15\nE 15\nE 15\nE 15\nE 15\nE 15\nA\nA\nA\nA\nQ 0 25 S, full scan 0\nQ 1 36 N, full scan 1\nQ 5 25 N, full scan 5\nQ 4 38 S, full scan 4\nW\nW\nW\nW\nW\nQ 0 42 C, full scan 0\nQ 0 32 S, full scan 0\nR\nQ 0 38 C, full scan 0\nQ 0 40 N, full scan 0\nQ 0 39 C, full scan 0\nQ 3 43 C, full scan 3\nQ 7 38 S, full scan 7\n",
    )
}

#[test]
fn by_square(rt: HostRuntime) -> Result<(), Fail> {
    check_task(
        &rt,
        b'1',
        "M\nR\nE 11\nE 12\nA\nA\nA\nE 12\nQ 6 0 S, full scan 6\nE 9\nE 9\nA\nA\nA\nA\nA\nA\nA\nA\nA\nA\nA\nA\nA\nA\nA\nA\nA\nA\nA\nA\nA\nA\nA\nA\nA\nA\nA\nA\nA\nA\nA\nA\nA\nA\nA\nA\nA\nA\nA\nA\nA\nQ 1 1 N, full scan 1\nR\nQ 0 23 S, full scan 0\nQ 0 30 S, full scan 0\nQ 1 24 S, full scan 1\nQ 0 30 S, full scan 0\nQ 4 32 S, full scan 4\nQ 1 40 N, full scan 1\nQ 0 24 N, full scan 0\nQ 1 31 N, full scan 0\nQ 5 21 C, full scan 5\nQ 1 21 S, full scan 1\nQ 5 21 C, full scan 5\nQ 1 21 S, full scan 1\nQ 1 21 N, full scan 1\nQ 1 21 S, full scan 1\nQ 4 22 C, full scan 4\nQ 4 29 C, full scan 4\nQ 0 28 N, full scan 0\nQ 0 29 C, full scan 0\nQ 0 28 S, full scan 0\nQ 2 40 C, full scan 2\nQ 6 41 C, full scan 6\nQ 6 41 C, full scan 6\nQ 5 30 S, full scan 5\nQ 6 41 N, full scan 6\nE 10\nE 9\nE 9\nE 9\nE 11\nE 9\nE 9\nE 9\nE 9\nE 15\nE 15\nE 15\nE 15\nE 15\nE 15\nA\nA\nA\nA\nQ 0 23 S, full scan 0\nQ 1 33 S, full scan 1\nQ 5 32 S, full scan 5\nQ 4 37 S, full scan 4\nW\nW\nW\nW\nW\nQ 0 41 C, full scan 0\nQ 0 31 S, full scan 0\nR\nQ 0 37 C, full scan 0\nQ 0 41 N, full scan 0\nQ 0 32 C, full scan 0\nQ 3 34 S, full scan 3\nQ 7 37 S, full scan 7\n",
    )
}

#[test]
fn by_peak(rt: HostRuntime) -> Result<(), Fail> {
    check_task(
        &rt,
        b'2',
        "M\nR\nE 11\nE 12\nA\nA\nA\nE 12\nQ 6 0 S, full scan 6\nE 9\nE 9\nA\nA\nA\nA\nA\nA\nA\nA\nA\nA\nA\nA\nA\nA\nA\nA\nA\nA\nA\nA\nA\nA\nA\nA\nA\nA\nA\nA\nA\nA\nA\nA\nA\nA\nA\nA\nA\nA\nA\nA\nA\nQ 1 1 N, full scan 1\nR\nQ 0 23 S, full scan 0\nQ 0 28 S, full scan 0\nQ 1 24 S, full scan 1\nQ 0 24 S, full scan 0\nQ 4 30 S, full scan 4\nQ 1 31 N, full scan 1\nQ 0 23 N, full scan 0\nQ 0 27 N, full scan 0\nQ 5 21 C, full scan 5\nQ 1 21 S, full scan 1\nQ 5 21 C, full scan 5\nQ 1 21 S, full scan 1\nQ 1 21 N, full scan 1\nQ 1 21 S, full scan 1\nQ 4 22 C, full scan 4\nQ 4 22 C, full scan 4\nQ 0 21 N, full scan 0\nQ 0 22 C, full scan 0\nQ 0 21 S, full scan 0\nQ 2 39 C, full scan 2\nQ 6 39 C, full scan 6\nQ 6 39 C, full scan 6\nQ 5 25 S, full scan 5\nQ 6 39 N, full scan 6\nE 10\nE 9\nE 9\nE 9\nE 11\nE 9\nE 9\nE 9\nE 9\nE 15\nE 15\nE 15\nE 15\nE 15\nE 15\nA\nA\nA\nA\nQ 0 23 S, full scan 0\nQ 5 23 N, full scan 5\nQ 5 24 N, full scan 5\nQ 4 30 S, full scan 4\nW\nW\nW\nW\nW\nQ 0 40 C, full scan 0\nQ 0 30 S, full scan 0\nR\nQ 0 36 C, full scan 0\nQ 0 27 N, full scan 0\nQ 0 27 C, full scan 0\nQ 3 33 C, full scan 3\nQ 0 36 C, full scan 0\n",
    )
}

#[test]
fn by_damped(rt: HostRuntime) -> Result<(), Fail> {
    check_task(
        &rt,
        b'3',
        "M\nR\nE 11\nE 12\nA\nA\nA\nE 12\nQ 6 0 S, full scan 6\nE 9\nE 9\nA\nA\nA\nA\nA\nA\nA\nA\nA\nA\nA\nA\nA\nA\nA\nA\nA\nA\nA\nA\nA\nA\nA\nA\nA\nA\nA\nA\nA\nA\nA\nA\nA\nA\nA\nA\nA\nA\nA\nA\nA\nQ 1 1 N, full scan 1\nR\nQ 0 25 S, full scan 0\nQ 0 31 S, full scan 0\nQ 1 25 S, full scan 1\nQ 0 31 S, full scan 0\nQ 6 32 S, full scan 6\nQ 1 33 N, full scan 1\nQ 4 24 N, full scan 0\nQ 1 29 N, full scan 1\nQ 5 30 C, full scan 5\nQ 1 30 S, full scan 1\nQ 5 30 C, full scan 5\nQ 1 30 S, full scan 1\nQ 1 30 N, full scan 1\nQ 1 30 S, full scan 1\nQ 4 24 C, full scan 4\nQ 4 30 C, full scan 4\nQ 0 29 N, full scan 0\nQ 0 30 C, full scan 0\nQ 0 29 S, full scan 0\nQ 2 41 C, full scan 2\nQ 6 41 C, full scan 6\nQ 6 41 C, full scan 6\nQ 5 30 S, full scan 5\nQ 6 41 N, full scan 6\nE 10\nE 9\nE 9\nE 9\nE 11\nE 9\nE 9\nE 9\nE 9\nE 15\nE 15\nE 15\nE 15\nE 15\nE 15\nA\nA\nA\nA\nQ 0 27 S, full scan 0\nQ 1 40 N, full scan 1\nQ 0 25 N, full scan 5\nQ 4 38 S, full scan 4\nW\nW\nW\nW\nW\nQ 0 42 C, full scan 0\nQ 0 34 S, full scan 0\nR\nQ 0 39 C, full scan 0\nQ 0 37 N, full scan 0\nQ 0 39 C, full scan 0\nQ 1 49 S, full scan 1\nQ 7 38 S, full scan 7\n",
    )
}
