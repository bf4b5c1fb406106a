// Reads a line: a load, nothing, or what is malformed.
ghost use Rattle.std.specs.Prelude.{◌≡◌, [], ◌∷◌, MatchOption};
ghost use Rattle.loads.specs.Pieces.{blank, words_of};
ghost use Rattle.loads.specs.Numbers.{number_of};
ghost use Rattle.loads.specs.Lines.{line_of};

use crate::Load;
use std::str;

// A line that is neither blank nor a load.
#[derive(Clone, Copy)]
pub struct Malformed;

fn is_blank(byte: &u8) -> bool
    ensures { result ≡ blank byte.now }
{
    matches!(*byte, b' ' | b'\t' | b'\r')
}

// The first word of the bytes, and what stands behind it; none where all are blank.
fn word(bytes: &[u8]) -> Option<(&[u8], &[u8])>
    ensures { MatchOption result (words_of bytes.now ≡ []) (λ (first, rest). words_of bytes.now ≡ first.now ∷ words_of rest.now) }
{
    let begin = bytes.iter().position(|byte| !is_blank(byte))?;
    let (_, rest) = bytes.split_at(begin);
    let end = rest.iter().position(is_blank).unwrap_or(rest.len());
    Some(rest.split_at(end))
}

// `parse` alone would take a sign too, at the front.
fn number(word: &[u8]) -> Option<u32>
    ensures { result ≡ number_of word.now }
{
    if !word.first()?.is_ascii_digit() {
        return None;
    }
    str::from_utf8(word).ok()?.parse().ok()
}

// The load of a line, or none where the line is blank.
pub fn line_load(line: &[u8]) -> Result<Option<Load>, Malformed>
    ensures { result ≡ line_of line.now }
{
    let Some((litres, rest)) = word(line) else {
        return Ok(None);
    };
    let Some((fat, rest)) = word(rest) else {
        return Err(Malformed);
    };
    match word(rest) {
        None => Ok(Some(Load {
            litres: number(litres).ok_or(Malformed)?,
            fat: number(fat).ok_or(Malformed)?,
        })),
        Some(_) => Err(Malformed),
    }
}
