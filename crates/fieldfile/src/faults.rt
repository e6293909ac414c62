// What is wrong with a file: the check that it fails, and the lowest record that fails it.
ghost use Rattle.std.specs.Prelude.{◌≡◌};
ghost use Rattle.fieldfile.specs.Faults.{check_number, flaw_fault, blame};

use field::Flaw;

// A check, by its number in the format.
#[derive(Clone, Copy, PartialEq, Eq, Debug)]
pub enum Check {
    // Under 14 bytes, or no mark at the end.
    Mark = 1,
    // A count out of range, a wrong way back, or a wrong length.
    Layout = 2,
    // A fibre or a value out of range, or a slot not above that of the record before.
    Sample = 3,
    // No such kind, a box off the grid, a leaf with a child, or node 0 not with the box of all readings.
    Node = 4,
    // A wrong child number, or a node that is not the child of exactly one.
    Links = 5,
    // A child whose box is wrong, or a rim that is no leaf.
    Boxes = 6,
    // A sample under another leaf than its own.
    Leaf = 7,
    // Counts that are not those of the samples.
    Counts = 8,
}

// The record is numbered among its kind: samples for checks 3 and 7, nodes for 4, 5, 6 and 8; it is 0 for 1 and 2.
#[derive(Clone, Copy, PartialEq, Eq, Debug)]
pub struct Fault {
    pub check: Check,
    pub record: u16,
}

impl From<Check> for u8 {
    ghost from_gives = { λ check n. n ≡ check_number check };

    // The number of the check.
    fn from(check: Check) -> u8 {
        check as u8
    }
}

// A check of the file as one.
impl From<Check> for Fault {
    ghost from_gives = { λ check fault. fault ≡ record { check = check; «record» = 0 } };

    fn from(check: Check) -> Fault {
        Fault { check, record: 0 }
    }
}

// What a field says of nodes that are no tree.
impl From<Flaw> for Fault {
    ghost from_gives = { λ flaw fault. fault ≡ flaw_fault flaw };

    fn from(flaw: Flaw) -> Fault {
        match flaw {
            Flaw::Root => Fault {
                check: Check::Node,
                record: 0,
            },
            Flaw::Links(record) => Fault {
                check: Check::Links,
                record,
            },
            Flaw::Boxes(record) => Fault {
                check: Check::Boxes,
                record,
            },
        }
    }
}

impl Check {
    // Whether no record fails this check: the fault of the lowest that does.
    pub(crate) fn passes_unless(self, lowest: Option<u16>) -> Result<(), Fault>
        ensures { result ≡ blame self lowest }
    {
        match lowest {
            Some(record) => Err(Fault {
                check: self,
                record,
            }),
            None => Ok(()),
        }
    }
}
