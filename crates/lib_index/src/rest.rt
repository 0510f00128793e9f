// What is still to be read of an index text, and the smallest parts of it.
ghost use Rattle.lib_index.specs.Reading.{Reads, Spends, bytes_at, coded, flag_of, front, number_at, rest_of};
ghost use Rattle.lib_index.specs.Reading as reading;

use crate::refusal::IndexRefusal;
use sig_base::Text;
use std::alloc::Global;

/// The bytes that are still to be read, and how much may be spent on them: nodes of a type, or weight of a
/// library.
#[derive(Clone, Copy)]
pub struct Rest<'a> {
    pub left: u32,
    pub bytes: &'a [u8],
}

/// Reads a number of four bytes.
#[tactic(auto, unfolding(crate::specs::Reading::number_at))]
pub fn number(rest: Rest<'_>) -> Result<(u32, Rest<'_>), IndexRefusal>
    ensures read { Reads (number_at (rest_of rest.entry)) result }
{
    if rest.bytes.len() < 4 {
        return Err(IndexRefusal::NotAnIndex);
    }
    let (front, bytes) = rest.bytes.split_at(4);
    let n = u32::from_be_bytes([front[0], front[1], front[2], front[3]]);
    let left = rest.left;
    Ok((n, Rest { left, bytes }))
}

#[tactic(auto, unfolding(crate::specs::Reading::bytes_of))]
fn bytes_of(alloc: Global, count: usize, rest: Rest<'_>) -> Result<(Text, Rest<'_>), IndexRefusal>
    ensures read { Reads (reading.bytes_of count (rest_of rest.entry)) result }
{
    if rest.bytes.len() < count {
        return Err(IndexRefusal::NotAnIndex);
    }
    let (front, bytes) = rest.bytes.split_at(count);
    let text = Text::from_slice(alloc, front)?;
    let left = rest.left;
    Ok((text, Rest { left, bytes }))
}

/// Reads bytes, before which stands how many they are.
#[tactic(auto, unfolding(crate::specs::Reading::bytes_at))]
pub fn bytes(alloc: Global, rest: Rest<'_>) -> Result<(Text, Rest<'_>), IndexRefusal>
    ensures read { Reads (bytes_at (rest_of rest.entry)) result }
{
    let (count, rest) = number(rest)?;
    bytes_of(alloc, count as usize, rest)
}

/// Reads the byte at the front.
pub fn byte(rest: Rest<'_>) -> Result<(u8, Rest<'_>), IndexRefusal>
    ensures read { Reads (front (rest_of rest.entry).left (rest_of rest.entry).bytes) result }
{
    let left = rest.left;
    match rest.bytes {
        [] => Err(IndexRefusal::NotAnIndex),
        [first, bytes @ ..] => Ok((*first, Rest { left, bytes })),
    }
}

/// Reads a truth value: 1 for true and 0 for false.
#[tactic(auto, unfolding(crate::specs::Reading::coded))]
pub fn flag(rest: Rest<'_>) -> Result<(bool, Rest<'_>), IndexRefusal>
    ensures read { Reads (coded flag_of (rest_of rest.entry)) result }
{
    let (first, rest) = byte(rest)?;
    match first {
        0 => Ok((false, rest)),
        1 => Ok((true, rest)),
        _ => Err(IndexRefusal::NotAnIndex),
    }
}

/// Spends so much.
#[tactic(auto, unfolding(crate::specs::Reading::spent))]
pub fn spent(cost: u64, rest: Rest<'_>) -> Result<Rest<'_>, IndexRefusal>
    ensures spent { Spends (reading.spent cost (rest_of rest.entry)) result }
{
    if u64::from(rest.left) < cost {
        return Err(IndexRefusal::NotAnIndex);
    }
    let left = rest.left - cost as u32;
    let bytes = rest.bytes;
    Ok(Rest { left, bytes })
}
