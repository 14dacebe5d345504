// Writes the file of some clips.
ghost use Rattle.std.specs.Prelude.{◌≡◌, ℕ, ◌+◌, ◌*◌, ◌≤◌, ◌++◌, length, take, IfSome};
ghost use Rattle.file.specs.Writes.{output_after, put, written_length, written};
ghost use Rattle.rules.specs.File.{bytes_of, header, letter_bytes, number_bytes};
ghost use Rattle.space.specs.Row.{stored_rows};

use space::{StoredClip, is_dimensions};

// Writes the bytes from that place on, and leaves the others. Answers the place behind them, as do the functions that write the parts of
// a file.
fn write_at(output: &mut [u8], at: usize, bytes: &[u8]) -> usize
    requires { at + length bytes.now ≤ length output.old }
    ensures bytes { output.new ≡ put at bytes.now output.old }
    ensures end { result ≡ at + length bytes.now }
{
    let end = at + bytes.len();
    output[at..end].copy_from_slice(bytes);
    end
}

// Writes d, the sizes, and how many rows follow.
fn write_front(output: &mut [u8], plan: &[u8], count: u16) -> usize
    requires { (length plan.now ≤ 10) × (3 + length plan.now ≤ length output.old) }
    ensures bytes { output.new ≡ put 0 (header plan.now ++ bytes_of 2 count) output.old }
    ensures end { result ≡ 3 + length plan.now }
{
    // By `as`: at most ten sizes fit a byte, and a try_from would have a branch that is never taken.
    let sizes = write_at(output, 0, &[plan.len() as u8]);
    let announced = write_at(output, sizes, plan);
    write_at(output, announced, &count.to_le_bytes())
}

// Writes the numbers of the clips from that place on. By place: of an output that `chunks_exact_mut` lent out, a proof knows the length
// afterwards and not the bytes.
fn write_numbers(output: &mut [u8], start: usize, clips: &[StoredClip]) -> usize
    requires { start + 4 * length clips.now ≤ length output.old }
    ensures bytes { (d : ℕ) → output.new ≡ put start (number_bytes (stored_rows d clips.now)) output.old }
    ensures end { result ≡ start + 4 * length clips.now }
{
    let mut at = start;
    for clip in clips {
        at = write_at(output, at, &clip.number.to_le_bytes());
    }
    at
}

// The first d letters of a clip. That a clip has ten is known of an argument, and not of an element of a slice.
fn letters_of(clip: &StoredClip, d: usize) -> &[u8]
    requires { d ≤ 10 }
    ensures value { result.now ≡ take d clip.now.letters }
    ensures long { length result.now ≡ d }
{
    &clip.letters[..d]
}

// Writes the letters of the clips, d of each, from that place on; by place, as the numbers.
fn write_letters(output: &mut [u8], start: usize, d: usize, clips: &[StoredClip]) -> usize
    requires { (d ≤ 10) × (start + d * length clips.now ≤ length output.old) }
    ensures bytes { output.new ≡ put start (letter_bytes (stored_rows d clips.now)) output.old }
    ensures long { length (letter_bytes (stored_rows d clips.now)) ≡ d * length clips.now }
    ensures end { result ≡ start + d * length clips.now }
{
    let mut at = start;
    for clip in clips {
        at = write_at(output, at, letters_of(clip, d));
    }
    at
}

// Writes the file of the clips, in their order, to the front of the output, and answers how many bytes it has. None, and the output
// as it was, where the plan has not 1 to 10 sizes, there are more clips than a file can announce, or the output is too short.
pub fn write_file(plan: &[u8], clips: &[StoredClip], output: &mut [u8]) -> Option<usize>
    ensures value { result ≡ written_length (length plan.now) (length clips.now) (length output.old) }
    ensures long { IfSome result (λ n. n ≡ length (written plan.now (stored_rows (length plan.now) clips.now))) }
    ensures bytes { output.new ≡ output_after plan.now clips.now output.old result }
{
    let d = plan.len();
    if !is_dimensions(d) {
        return None;
    }
    let count = u16::try_from(clips.len()).ok()?;
    let length = 3 + d + 4 * clips.len() + d * clips.len();
    if output.len() < length {
        return None;
    }
    let numbers = write_front(output, plan, count);
    let letters = write_numbers(output, numbers, clips);
    Some(write_letters(output, letters, d, clips))
}
