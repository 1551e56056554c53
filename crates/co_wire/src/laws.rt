//! Facts on public bytes and on bodies. Each function returns nothing: its contract is the fact.

ghost use Rattle.std.specs.Prelude.{◌≡◌, ◌≤◌, ◌*◌, ℕ, List, Ok, length};
ghost use Rattle.co_noise.specs.Shapes.{Numbers};
ghost use Rattle.co_bfv.specs.Ciphertexts.{Ciphertext};
ghost use Rattle.co_switch.specs.Keys.{Keys};
ghost use Rattle.co_link.specs.declared.messages.Target.TheVariants as targets;
ghost use Rattle.co_wire.specs.BadBodies.{IsBadBody};
ghost use Rattle.co_wire.specs.Bodies.{SpellsCiphers, SpellsKeys};
ghost use Rattle.co_wire.specs.Lengths.{cipher_size, request_size};
ghost use Rattle.co_wire.specs.declared.fault.WireFault.{WireFault};
ghost use Rattle.co_wire.specs.declared.fault.WireFault.TheVariants.{OutOfMemory};
ghost use Rattle.co_wire.specs.Public.{ArePublic, public_bytes, public_of};

/// What was written reads back equal.
pub fn written_reads_back()
    ensures { (s : Numbers) (ts : List (List ℕ)) → ArePublic s ts
        → public_of (public_bytes s ts) ≡ Ok (s, ts) }
{}

/// Public bytes are at most 8 and 32, and 131,072 terms of 64 bytes behind their lengths.
pub fn public_bytes_are_few()
    ensures { (s : Numbers) (ts : List (List ℕ)) → ArePublic s ts
        → length (public_bytes s ts) ≤ 8519720 }
{}

/// A body spells one list of ciphertexts of a degree and a number at most.
pub fn one_list()
    ensures { (n count : ℕ) (cs ds : List Ciphertext) (body : List ℕ)
        → SpellsCiphers n count cs body → SpellsCiphers n count ds body → cs ≡ ds }
{}

/// A body spells one key set of a shape at most.
pub fn one_key_set()
    ensures { (s : Numbers) (ks ls : Keys) (body : List ℕ) → SpellsKeys s ks body
        → SpellsKeys s ls body → ks ≡ ls }
{}

/// A body that spells ciphertexts has no fault: its length is right and each residue is in range.
pub fn spelled_lists_are_good()
    ensures { (n count : ℕ) (cs : List Ciphertext) (body : List ℕ) (fault : WireFault)
        → SpellsCiphers n count cs body → IsBadBody (count * cipher_size n) body fault
        → fault ≡ OutOfMemory }
{}

/// A body that spells a key set has no fault: its length is right and each residue is in range.
pub fn spelled_key_sets_are_good()
    ensures { (s : Numbers) (keys : Keys) (body : List ℕ) (fault : WireFault)
        → SpellsKeys s keys body → IsBadBody (request_size s targets.Keys) body fault
        → fault ≡ OutOfMemory }
{}
