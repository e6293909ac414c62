// A field read from a file.
ghost use Rattle.fieldfile.specs.Loads.{Reads, Loads};

use super::body::Body;
use super::faults::Fault;
use field::Field;

// Loads a file: the field is then the one that the file describes, or as it was if a check fails.
pub fn load(field: &mut Field, file: &[u8]) -> Result<(), Fault>
    ensures { Loads file.now field.old field.new result }
{
    *field = read(file)?;
    Ok(())
}

// The field of a file. The checks run in rising number, each over all its records before the next.
fn read(file: &[u8]) -> Result<Field, Fault>
    ensures { Reads file.now result }
{
    let body = Body::of(file)?;
    body.check_samples()?;
    let nodes = body.nodes()?;
    let mut field = Field::with_tree(nodes)?;
    body.check_leaves(&field)?;
    body.admit_samples(&mut field);
    body.check_counts(&field)?;
    Ok(field)
}
