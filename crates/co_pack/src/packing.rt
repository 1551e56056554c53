//! Puts documents into bins, the longest first, each into the first bin with room (first fit
//! decreasing).
//!
//! The bins stand in blocks of 256, each with a bound on the room of its bins. A block is scanned
//! only where its bound allows the document, and a scan in vain makes the bound exact; so a block
//! is scanned in vain at most once for each document that it takes. With D documents and B bins a
//! packing costs at most D * ceil(B / 256) looks at bounds and about 1,000 * D looks at bins.

ghost use Rattle.std.specs.Prelude.{◌≡◌, ◌+◌, ◌*◌, ◌/◌, ◌<◌, ◌≤◌, ◌++◌, ◌^◌, ℕ, List, [], ◌∷◌, length, slice_index, slice_index_or, IfOk, MatchOption, IfSome, map};
ghost use Rattle.std.specs.List.{All, range_with_len};
ghost use Rattle.std.specs.List.Sorted.{IsPermutation, IsSorted};
ghost use Rattle.co_text.specs.declared.limits.TheConstants.{MOST_DOCUMENTS};
ghost use Rattle.co_pack.specs.Packing.{IsBinSize, IsNext, IsFirstFit, IsPacked, IsBinCount, IsEarlier, key_cmp, no_place};
ghost use Rattle.co_pack.specs.Rooms.{IsTopped, IsRoom, IsOpened};

use co_list::Listed;
use co_text::LONGEST_TEXT;
use std::alloc::{AllocError, Global};
use std::cmp::Reverse;

/// The most bytes of a bin that is asked for: those of the longest text.
pub const MOST_BIN_BYTES: u32 = LONGEST_TEXT as u32;

/// The greatest degree.
pub const MOST_DEGREE: u32 = 4_096;

/// The bins of a block.
const BLOCK: usize = 256;

/// Where a text stands: its bin, its first byte there, and its bytes.
#[derive(Clone, Copy, Debug, PartialEq, Eq)]
pub struct Place {
    /// The bin's number, from 0.
    pub bin: u32,
    /// How many bytes of the bin stand before the text.
    pub offset: u32,
    /// How many bytes the text has.
    pub length: u32,
}

/// How many bytes are free, bin by bin; or a bound on that, block by block.
type Rooms = Vec<u32>;

/// Document by document, where its text stands.
pub type Places = Listed<Place>;

/// The bytes of a bin: the least multiple of `2 * degree` that holds the longest text, and at least
/// `chunks` pieces of `2 * degree` bytes.
pub fn bin_size(longest: u32, degree: u32, chunks: u32) -> u32
    requires longest { longest ≤ MOST_BIN_BYTES }
    requires some_degree { 1 ≤ degree }
    requires degree { degree ≤ MOST_DEGREE }
    requires some_chunks { 1 ≤ chunks }
    requires chunks { chunks * (2 * degree) ≤ MOST_BIN_BYTES }
    ensures { IsBinSize longest degree chunks result }
{
    let piece = 2 * degree;
    let pieces = longest.div_ceil(piece).max(chunks);
    pieces * piece
}

/// Puts documents, given by their lengths, into bins of `size` bytes: the longest first, and of
/// equal ones the lowest number first, each into the first bin with room, behind what stands there.
///
/// Gives the places by document, and the number of bins.
pub fn pack_bins(alloc: Global, lengths: &[u32], size: u32) -> Result<(Places, u32), AllocError>
    requires some { 1 ≤ length lengths.now }
    requires few { length lengths.now ≤ MOST_DOCUMENTS }
    requires within { All (λ l. l ≤ size) lengths.now }
    ensures { IfOk result (λ r. IsPacked lengths.now size r.0 r.1) }
{
    let order = packing_order(alloc, lengths)?;
    let (placed, bins) = pack_in_order(alloc, lengths, &order, size)?;
    let places = by_document(alloc, &order, &placed)?;
    Ok((Places::from_vec(places), bins))
}

/// The first bin from `from` up to `to` with room.
fn first_in(rooms: &[u32], from: usize, to: usize, need: u32) -> Option<usize>
    requires range { from ≤ to }
    requires end { to ≤ length rooms.now }
    ensures none { MatchOption result ((b : ℕ) → from ≤ b → b < to
        → slice_index rooms.now b < need) (λ bin. (b : ℕ) → from ≤ b → b < bin
        → slice_index rooms.now b < need) }
    ensures some { IfSome result (λ bin. need ≤ slice_index rooms.now bin) }
    ensures within { IfSome result (λ bin. bin < to) }
    ensures above { IfSome result (λ bin. from ≤ bin) }
{
    for at in from..to {
        if rooms[at] >= need {
            return Some(at);
        }
    }
    None
}

/// The first bin of a block with room. Where there is none, the block's bound becomes the greatest
/// room there.
fn in_block(rooms: &[u32], tops: &mut [u32], block: usize, need: u32) -> Option<usize>
    requires topped { IsTopped rooms.now tops.old }
    requires few { length tops.old ≤ 2 ^ 32 }
    requires block { block < length tops.old }
    ensures none { MatchOption result ((b : ℕ) → block * BLOCK ≤ b → b < block * BLOCK + BLOCK
        → b < length rooms.now → slice_index rooms.now b < need) (λ bin. (b : ℕ) → block * BLOCK ≤ b
        → b < bin → slice_index rooms.now b < need) }
    ensures some { IfSome result (λ bin. need ≤ slice_index rooms.now bin) }
    ensures within { IfSome result (λ bin. bin < length rooms.now) }
    ensures topped { IsTopped rooms.now tops.new }
{
    if tops[block] < need {
        return None;
    }
    let from = (block * BLOCK).min(rooms.len());
    let to = (block * BLOCK + BLOCK).min(rooms.len());
    if let Some(bin) = first_in(rooms, from, to, need) {
        return Some(bin);
    }
    tops[block] = greatest_room(rooms, from, to);
    None
}

/// The greatest room of the bins from `from` up to `to`.
fn greatest_room(rooms: &[u32], from: usize, to: usize) -> u32
    requires range { from ≤ to }
    requires end { to ≤ length rooms.now }
    ensures { (b : ℕ) → from ≤ b → b < to → slice_index rooms.now b ≤ result }
{
    let mut most = 0u32;
    for bin in from..to {
        most = most.max(rooms[bin]);
    }
    most
}

/// The first bin with room.
fn first_fit(rooms: &[u32], tops: &mut [u32], need: u32) -> Option<usize>
    requires topped { IsTopped rooms.now tops.old }
    requires few { length tops.old ≤ 2 ^ 32 }
    ensures none { MatchOption result ((b : ℕ) → b < length rooms.now
        → slice_index rooms.now b < need) (λ bin. (b : ℕ) → b < bin
        → slice_index rooms.now b < need) }
    ensures some { IfSome result (λ bin. need ≤ slice_index rooms.now bin) }
    ensures within { IfSome result (λ bin. bin < length rooms.now) }
    ensures topped { IsTopped rooms.now tops.new }
{
    for block in 0..tops.len() {
        if let Some(bin) = in_block(rooms, tops, block, need) {
            return Some(bin);
        }
    }
    None
}

/// One more bin, all of whose bytes are free.
fn open(rooms: &mut Rooms, tops: &mut Rooms, size: u32) -> Result<(), AllocError>
    requires topped { IsTopped rooms.old.items tops.old.items }
    requires few { length rooms.old.items < 2 ^ 20 }
    requires short { length tops.old.items ≤ length rooms.old.items }
    ensures rooms { IfOk result (λ _. rooms.new.items ≡ rooms.old.items ++ size ∷ []) }
    ensures topped { IfOk result (λ _. IsTopped rooms.new.items tops.new.items) }
    ensures short { IfOk result (λ _. length tops.new.items ≤ length rooms.new.items) }
{
    let block = rooms.len() / BLOCK;
    if block < tops.len() {
        tops[block] = size.max(tops[block]);
    } else {
        tops.push(size)?;
    }
    rooms.push(size)?;
    Ok(())
}

/// The first bin with room, which is opened where there is none.
fn room_for(rooms: &mut Rooms, tops: &mut Rooms, size: u32, need: u32) -> Result<usize, AllocError>
    requires topped { IsTopped rooms.old.items tops.old.items }
    requires few { length rooms.old.items < 2 ^ 20 }
    requires short { length tops.old.items ≤ length rooms.old.items }
    requires need { need ≤ size }
    ensures opened { IfOk result (λ bin. IsOpened size rooms.old.items bin rooms.new.items) }
    ensures fits { IfOk result (λ bin. need ≤ slice_index rooms.new.items bin) }
    ensures within { IfOk result (λ bin. bin < length rooms.new.items) }
    ensures first { IfOk result (λ bin. (b : ℕ) → b < bin → slice_index rooms.new.items b < need) }
    ensures topped { IfOk result (λ _. IsTopped rooms.new.items tops.new.items) }
    ensures short { IfOk result (λ _. length tops.new.items ≤ length rooms.new.items) }
{
    if let Some(bin) = first_fit(rooms, tops, need) {
        return Ok(bin);
    }
    let bin = rooms.len();
    open(rooms, tops, size)?;
    Ok(bin)
}

/// The place of the next document.
fn place_next(
    rooms: &mut Rooms,
    tops: &mut Rooms,
    size: u32,
    need: u32,
) -> Result<Place, AllocError>
    requires topped { IsTopped rooms.old.items tops.old.items }
    requires few { length rooms.old.items < 2 ^ 20 }
    requires short { length tops.old.items ≤ length rooms.old.items }
    requires need { need ≤ size }
    requires within { All (λ room. room ≤ size) rooms.old.items }
    ensures long { IfOk result (λ p. p.length ≡ need) }
    ensures next { IfOk result (λ p. (places : List Place) → IsRoom size places rooms.old.items
        → IsNext size places p × IsRoom size (places ++ p ∷ []) rooms.new.items) }
    ensures topped { IfOk result (λ _. IsTopped rooms.new.items tops.new.items) }
    ensures short { IfOk result (λ _. length tops.new.items ≤ length rooms.new.items) }
    ensures within { IfOk result (λ _. All (λ room. room ≤ size) rooms.new.items) }
    ensures few { IfOk result (λ _. length rooms.new.items ≤ length rooms.old.items + 1) }
{
    let bin = room_for(rooms, tops, size, need)?;
    let offset = size - rooms[bin];
    rooms[bin] -= need;
    Ok(Place {
        bin: bin as u32,
        offset,
        length: need,
    })
}

/// The places of the documents `order`, each in turn, and the number of bins.
fn pack_in_order(
    alloc: Global,
    lengths: &[u32],
    order: &[u32],
    size: u32,
) -> Result<(Vec<Place>, u32), AllocError>
    requires some { 1 ≤ length order.now }
    requires few { length order.now ≤ MOST_DOCUMENTS }
    requires numbers { All (λ d. d < length lengths.now) order.now }
    requires within { All (λ l. l ≤ size) lengths.now }
    ensures many { IfOk result (λ r. length r.0.items ≡ length order.now) }
    ensures long { IfOk result (λ r. (s : ℕ) → s < length order.now
        → (slice_index_or r.0.items s no_place).length ≡ slice_index lengths.now
        (slice_index order.now s)) }
    ensures first_fit { IfOk result (λ r. IsFirstFit size r.0.items) }
    ensures count { IfOk result (λ r. IsBinCount r.0.items r.1) }
{
    let mut placed = Vec::with_capacity(alloc, order.len())?;
    let mut rooms = Vec::new(alloc);
    let mut tops = Vec::new(alloc);
    for document in order {
        let place = place_next(&mut rooms, &mut tops, size, lengths[*document as usize])?;
        placed.push(place)?;
    }
    Ok((placed, rooms.len() as u32))
}

/// The documents in the order of packing: by length downwards, and then by number.
fn packing_order(alloc: Global, lengths: &[u32]) -> Result<Vec<u32>, AllocError>
    requires { length lengths.now ≤ MOST_DOCUMENTS }
    ensures permutes { IfOk result (λ order.
        IsPermutation (range_with_len 0 (length lengths.now)) order.items) }
    ensures in_order { IfOk result (λ order. (s t : ℕ) → s < t → t < length order.items
        → IsEarlier lengths.now (slice_index order.items s) (slice_index order.items t)) }
{
    let keys = sorted_keys(alloc, lengths)?;
    let order = documents(alloc, &keys)?;
    Ok(order)
}

/// The documents of some keys.
fn documents(alloc: Global, keys: &[(Reverse<u32>, u32)]) -> Result<Vec<u32>, AllocError>
    ensures { IfOk result (λ order. order.items ≡ map (λ k. k.1) keys.now) }
{
    keys.iter().map(|key| key.1).collect(alloc)
}

/// Each length with its document, in the order of packing.
fn sorted_keys(alloc: Global, lengths: &[u32]) -> Result<Vec<(Reverse<u32>, u32)>, AllocError>
    requires { length lengths.now ≤ MOST_DOCUMENTS }
    ensures permutes { IfOk result (λ keys. IsPermutation (range_with_len 0 (length lengths.now))
        (map (λ k. k.1) keys.items)) }
    ensures long { IfOk result (λ keys. All (λ k. k.0.0 ≡ slice_index lengths.now k.1) keys.items) }
    ensures sorted { IfOk result (λ keys. IsSorted key_cmp keys.items) }
{
    let mut keys = Vec::with_capacity(alloc, lengths.len())?;
    for (document, length) in lengths.iter().enumerate() {
        keys.push((Reverse(*length), document as u32))?;
    }
    keys.sort_unstable();
    Ok(keys)
}

/// The places by document.
fn by_document(alloc: Global, order: &[u32], placed: &[Place]) -> Result<Vec<Place>, AllocError>
    requires permutes { IsPermutation (range_with_len 0 (length order.now)) order.now }
    requires many { length placed.now ≡ length order.now }
    ensures many { IfOk result (λ places. length places.items ≡ length order.now) }
    ensures moved { IfOk result (λ places. (s : ℕ) → s < length order.now
        → slice_index_or places.items (slice_index order.now s) no_place
        ≡ slice_index_or placed.now s no_place) }
{
    let mut places = Vec::from_slice(alloc, placed)?;
    for s in 0..order.len() {
        places[order[s] as usize] = placed[s];
    }
    Ok(places)
}
