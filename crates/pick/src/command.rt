// What a line asks for.
ghost use Rattle.lines.specs.Faults.{Faulty};
ghost use Rattle.pick.specs.Commands.{Reads};
ghost use Rattle.pick.specs.Said.{all_bytes, said_by, said_of};
ghost use Rattle.space.specs.Boxes.{given};
ghost use Rattle.std.specs.Prelude.{◌≡◌, Some, MatchResult};

use lines::{FieldsError, read_fields};
use std::alloc::Global;

#[derive(Drop)]
pub enum Command {
    // Starts an empty library with a plan.
    Plan(Vec<u8>),
    // Lists a clip.
    List(u32, Vec<u8>),
    // Bars a letter in a dimension, counted from 1.
    Bar(u32, u8),
    // Sets the cut-off.
    CutOff(u32),
    // Asks for so many clips nearest to a query.
    Nearest(u32, Vec<u8>),
}

// Letters or sizes: fields up to 255.
fn read_bytes(heap: Global, fields: &[u32]) -> Result<Vec<u8>, FieldsError>
    ensures { MatchResult result (λ v. given (all_bytes fields.now) fields.now ≡ Some v.items) (Faulty (given (all_bytes fields.now) fields.now)) }
{
    let mut bytes = Vec::new(heap);
    for field in fields {
        bytes.push(u8::try_from(*field)?)?;
    }
    Ok(bytes)
}

// What the fields say after a character.
fn read_kind(heap: Global, kind: char, fields: &[u32]) -> Result<Command, FieldsError>
    ensures { Reads (said_by kind fields.now) result }
{
    match (kind, fields) {
        ('P', sizes) => Ok(Command::Plan(read_bytes(heap, sizes)?)),
        ('E', [number, letters @ ..]) => Ok(Command::List(*number, read_bytes(heap, letters)?)),
        ('B', [dimension, letter]) => Ok(Command::Bar(*dimension, u8::try_from(*letter)?)),
        ('C', [limit]) => Ok(Command::CutOff(*limit)),
        ('N', [count, query @ ..]) => Ok(Command::Nearest(*count, read_bytes(heap, query)?)),
        _ => Err(FieldsError::Malformed),
    }
}

// The command of a line: a character, and the fields after it.
pub fn read_command(heap: Global, line: &[u8]) -> Result<Command, FieldsError>
    ensures { Reads (said_of line.now) result }
{
    let (kind, text) = line.split_first().ok_or(FieldsError::Malformed)?;
    let fields = read_fields(heap, text)?;
    read_kind(heap, char::from(*kind), &fields)
}
