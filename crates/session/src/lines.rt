// What the lines of a script say, and what they call of a reader.
ghost use Rattle.std.specs.Prelude.{◌≡◌, ◌++◌, Ok, IfOk, OnOk};
ghost use Rattle.script.specs.Scripts.{commands, text_left};
ghost use Rattle.session.specs.Sessions.{calls, calls_of};

use histories::Call;
use script::{Command, Query, Script, Unreadable};
use std::alloc::{AllocError, Global};

// What each line of a script says.
pub(crate) fn read(
    heap: Global,
    script: Script,
) -> Result<Vec<Result<Command, Unreadable>>, AllocError>
    ensures { IfOk result (λ v. v.items ≡ commands (text_left script.entry)) }
{
    let mut lines = Vec::new(heap);
    for line in script {
        lines.push(line)?;
    }
    Ok(lines)
}

// The calls that the lines ask for.
pub(crate) fn calls(
    heap: Global,
    lines: &[Result<Command, Unreadable>],
) -> Result<Vec<Call<'static>>, AllocError>
    ensures { IfOk result (λ v. v.items ≡ calls lines.now) }
{
    let mut calls = Vec::new(heap);
    for line in lines {
        if let Ok(command) = line {
            push_calls(&mut calls, *command)?;
        }
    }
    Ok(calls)
}

// A question is opened, stepped to its end and closed.
fn push_calls(calls: &mut Vec<Call<'static>>, command: Command) -> Result<(), AllocError>
    ensures { OnOk result (calls.new.items ≡ calls.old.items ++ calls_of (Ok command)) }
{
    match command {
        Command::Admit {
            slot,
            fibre,
            values,
        } => calls.push(Call::Admit {
            slot,
            fibre,
            values,
        })?,
        Command::Withdraw { slot } => calls.push(Call::Withdraw(slot))?,
        Command::Rebuild => calls.push(Call::Rebuild)?,
        Command::Query(query) => {
            let Query {
                k,
                num,
                den,
                reading,
            } = query;
            calls.push(Call::Open {
                reading,
                k,
                num,
                den,
            })?;
            calls.push(Call::Finish)?;
            calls.push(Call::Close)?;
        }
    }
    Ok(())
}
