// The fields of a line.
ghost use Rattle.lines.specs.Faults.{Faulty};
ghost use Rattle.lines.specs.Fields.{fields_from, fields_of, longer};
ghost use Rattle.lines.specs.declared.fields.FieldsError.TheVariants.{Malformed, Memory};
ghost use Rattle.std.specs.Prelude.{◌≡◌, Some, None, MatchResult};

use std::alloc::{AllocError, AllocFailed, Global};
use std::num::TryFromIntError;

const SPACE: u8 = b' ';

// Why there are no fields to be had: the text is no list of fields, or there is no memory to keep them in.
#[derive(Clone, Copy, PartialEq, Eq, Debug)]
pub enum FieldsError {
    Malformed,
    Memory,
}

impl From<AllocError> for FieldsError {
    ghost from_gives = { λ _ r. r ≡ Memory };

    fn from(_e: AllocError) -> FieldsError {
        FieldsError::Memory
    }
}

impl<T: Drop> From<AllocFailed<T>> for FieldsError {
    ghost from_gives = { λ _ r. r ≡ Memory };

    fn from(_e: AllocFailed<T>) -> FieldsError {
        FieldsError::Memory
    }
}

// A number that is no value of its type is no field.
impl From<TryFromIntError> for FieldsError {
    ghost from_gives = { λ _ r. r ≡ Malformed };

    fn from(_e: TryFromIntError) -> FieldsError {
        FieldsError::Malformed
    }
}

// A field one digit longer, of which so much is read; none where the byte is no digit, or the value would not fit 32 bits.
fn lengthen(value: Option<u32>, byte: u8) -> Option<u32>
    ensures { result ≡ longer value byte }
{
    if !byte.is_ascii_digit() {
        return None;
    }
    let shifted = value.unwrap_or(0).checked_mul(10)?;
    shifted.checked_add(u32::from(byte - b'0'))
}

// The fields of a text that begins right after the space before the first. In one pass, so that a text is refused at its first fault: a
// split at the spaces would go to the end of the field first.
fn read_spaced(heap: Global, text: &[u8]) -> Result<Vec<u32>, FieldsError>
    ensures { MatchResult result (λ v. fields_from None text.now ≡ Some v.items) (Faulty (fields_from None text.now)) }
{
    let mut fields = Vec::new(heap);
    // What is read of the field that the next byte may belong to; none right after its space.
    let mut value = None;
    for byte in text {
        if *byte == SPACE {
            fields.push(value.take().ok_or(FieldsError::Malformed)?)?;
        } else {
            value = Some(lengthen(value, *byte).ok_or(FieldsError::Malformed)?);
        }
    }
    fields.push(value.ok_or(FieldsError::Malformed)?)?;
    Ok(fields)
}

// The values of the fields of a text: nothing at all, or one space and then digits, for each field.
pub fn read_fields(heap: Global, text: &[u8]) -> Result<Vec<u32>, FieldsError>
    ensures { MatchResult result (λ v. fields_of text.now ≡ Some v.items) (Faulty (fields_of text.now)) }
{
    match text {
        [] => Ok(Vec::new(heap)),
        [SPACE, fields @ ..] => read_spaced(heap, fields),
        _ => Err(FieldsError::Malformed),
    }
}
