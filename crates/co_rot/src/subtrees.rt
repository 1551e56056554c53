//! The crown, and the walk from each of its rotations through a subtree.

ghost use Rattle.std.specs.Prelude.{◌≡◌, ◌-◌, ◌*◌, ◌≤◌, ◌<◌, ◌^◌, length, All, IfOk, OnOk, OnErr};
ghost use Rattle.co_bfv.specs.Ciphertexts.{Ciphertext, ciphertext_degree};
ghost use Rattle.co_switch.specs.Keys.{keys_degree, rotation_key};
ghost use Rattle.co_switch.specs.Steps.{raised, HasRisen};
ghost use Rattle.co_switch.specs.Switches.{switched};
ghost use Rattle.co_rot.specs.Bits.{lowest_bit as lowest_bit_of};
ghost use Rattle.co_rot.specs.Rotations.{rotation};
ghost use Rattle.co_rot.specs.Subtrees.{crown_bits, subtree_bits, crown_of, IsRoot, HasVisited};
ghost use Rattle.co_rot.specs.Subtrees.{IsSubtree};

use crate::parents::{lowest_bit, parent};
use crate::visitor::Visitor;
use co_bfv::Cipher;
use co_switch::{KeySet, Steps, apply};
use std::alloc::{AllocError, Global};

/// The rotation by `i`, from that by its parent.
fn turn<L>(
    alloc: Global,
    from: &Cipher,
    i: u32,
    keys: &KeySet,
    steps: &mut Steps<L>,
) -> Result<Cipher, AllocError>
    requires turned { 1 ≤ i }
    requires within { i < 2 ^ length keys.now.rotations }
    requires one_degree { ciphertext_degree from.now ≡ keys_degree keys.now }
    ensures value { IfOk result (λ r.
        r ≡ switched (rotation_key keys.now (lowest_bit_of i)) from.now) }
    ensures degree { IfOk result (λ r. ciphertext_degree r ≡ keys_degree keys.now) }
    ensures step { OnOk result (steps.new ≡ raised steps.old 1) }
    ensures no_step { OnErr result (steps.new ≡ steps.old) }
{
    let key = &keys.rotations()[lowest_bit(i) as usize];
    let _ = key.degree();
    apply(alloc, from, key, steps)
}

/// Half of 2^level.
fn half_size(level: u32) -> u32
    requires some { 1 ≤ level }
    requires few { level ≤ 32 }
    ensures { result ≡ 2 ^ (level - 1) }
{
    1 << (level - 1)
}

/// How many subtrees there are: 2^u, where u is half of log2(n/2), rounded down.
pub fn subtree_count(keys: &KeySet) -> u32
    ensures { result ≡ 2 ^ crown_bits keys.now }
{
    1 << (keys.rotations().len() / 2)
}

/// How many rotations a subtree has: 2^w, which is n/2 divided by the number of subtrees.
pub fn subtree_size(keys: &KeySet) -> u32
    ensures { result ≡ 2 ^ subtree_bits keys.now }
{
    let bits = keys.rotations().len();
    1 << (bits - bits / 2)
}

/// The 2^u rotations by the multiples of 2^w, in order, in 2^u - 1 steps.
/// After want of memory at most as many steps are counted.
pub fn crown<L>(
    alloc: Global,
    query: &Cipher,
    keys: &KeySet,
    steps: &mut Steps<L>,
) -> Result<Vec<Cipher>, AllocError>
    requires { ciphertext_degree query.now ≡ keys_degree keys.now }
    ensures value { IfOk result (λ roots. roots.items ≡ crown_of keys.now query.now) }
    ensures one_degree { IfOk result (λ roots.
        All (λ c. ciphertext_degree c ≡ keys_degree keys.now) roots.items) }
    ensures steps { OnOk result (steps.new ≡ raised steps.old (2 ^ crown_bits keys.now - 1)) }
    ensures rise { HasRisen steps.old (2 ^ crown_bits keys.now - 1) steps.new }
{
    let _ = keys.rotations();
    let _ = query.degree();
    let size = subtree_size(keys);
    let mut roots = Vec::new(alloc);
    roots.push(query.copy(alloc)?)?;
    for r in 1..subtree_count(keys) {
        let next = turn(alloc, &roots[parent(r) as usize], r * size, keys, steps)?;
        roots.push(next)?;
    }
    Ok(roots)
}

/// Shows the visitor the 2^level rotations from `number` on, in order: first the lower half, then,
/// from the same ciphertext by one switch, the upper half. So at most `level` ciphertexts are held.
fn walk<V: Visitor, L>(
    alloc: Global,
    level: u32,
    number: u32,
    cipher: &Cipher,
    keys: &KeySet,
    visitor: &mut V,
    steps: &mut Steps<L>,
) -> Result<(), AllocError>
    requires subtree { IsSubtree keys.now level number }
    requires cipher_degree { ciphertext_degree cipher.now ≡ keys_degree keys.now }
    requires visitor_degree { V.degree visitor.old ≡ keys_degree keys.now }
    ensures visits { (query : Ciphertext) → cipher.now ≡ rotation keys.now query number
        → OnOk result
        (HasVisited V.visits (rotation keys.now query) number (2 ^ level) visitor.old visitor.new) }
    ensures degree { OnOk result (V.degree visitor.new ≡ V.degree visitor.old) }
    ensures steps { OnOk result (steps.new ≡ raised steps.old (2 ^ level - 1)) }
    ensures rise { HasRisen steps.old (2 ^ level - 1) steps.new }
{
    if level == 0 {
        return visitor.visit(number, cipher);
    }
    let _ = keys.rotations();
    walk(alloc, level - 1, number, cipher, keys, visitor, steps)?;
    let middle = number + half_size(level);
    let turned = turn(alloc, cipher, middle, keys, steps)?;
    walk(alloc, level - 1, middle, &turned, keys, visitor, steps)
}

/// Shows the visitor the 2^w rotations from `root` on, ascending, each once, in 2^w - 1 steps.
/// The ciphertext is the rotation by `root`. At most w ciphertexts are held beside it.
/// After want of memory at most as many steps are counted, and the visitor's state isn't stated.
pub fn walk_subtree<V: Visitor, L>(
    alloc: Global,
    root: u32,
    cipher: &Cipher,
    keys: &KeySet,
    visitor: &mut V,
    steps: &mut Steps<L>,
) -> Result<(), AllocError>
    requires root { IsRoot keys.now root }
    requires cipher_degree { ciphertext_degree cipher.now ≡ keys_degree keys.now }
    requires visitor_degree { V.degree visitor.old ≡ keys_degree keys.now }
    ensures visits { (query : Ciphertext) → cipher.now ≡ rotation keys.now query root
        → OnOk result
        (HasVisited V.visits (rotation keys.now query) root (2 ^ subtree_bits keys.now)
        visitor.old visitor.new) }
    ensures degree { OnOk result (V.degree visitor.new ≡ V.degree visitor.old) }
    ensures steps { OnOk result (steps.new ≡ raised steps.old (2 ^ subtree_bits keys.now - 1)) }
    ensures rise { HasRisen steps.old (2 ^ subtree_bits keys.now - 1) steps.new }
{
    let bits = keys.rotations().len();
    let level = (bits - bits / 2) as u32;
    walk(alloc, level, root, cipher, keys, visitor, steps)
}
