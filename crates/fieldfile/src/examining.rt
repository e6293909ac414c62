// What a file holds, found by loading it, and whether writing it back gives the same bytes.
ghost use Rattle.fieldfile.specs.Examined.{Examines};

use super::faults::Fault;
use super::file::{MAX_FILE, write};
use super::loading::load;
use field::Field;

// How many samples and nodes a file has, and whether the field that it describes is written as the same bytes.
#[derive(Clone, Copy, PartialEq, Eq, Debug)]
pub struct Holding {
    pub samples: u16,
    pub nodes: u16,
    pub same: bool,
}

// Loads a file and writes it back.
pub fn examine(file: &[u8]) -> Result<Holding, Fault>
    ensures { Examines file.now result }
{
    let mut field = Field::new();
    load(&mut field, file)?;
    let mut back = [0; MAX_FILE];
    let len = write(&field, &mut back).unwrap();
    Ok(Holding {
        samples: field.slots().count(),
        nodes: field.nodes().len() as u16,
        same: &back[..len] == file,
    })
}
