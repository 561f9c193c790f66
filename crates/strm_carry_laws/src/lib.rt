//! One stream of bytes from one guest to another: what its steps do, and what they bring. Laws, no code that runs.
//!
//! Meaning: `OneStream.antt`; the states on the way are in `Serving.antt`. Ours.
#![tactic(auto)]

ghost use Rattle.std.specs.Prelude.{◌≡◌, ◌≤◌, ◌<◌, ◌∷◌, ◌++◌, ◌+◌, ◌-◌, ◌*◌, ◌^◌, [], ℕ, Bool, true, false, List, length, min, take, drop, map, Some};
ghost use Rattle.strm_codes.specs.declared.codes.ReturnCode.TheVariants as codes;
ghost use Rattle.strm_laws.specs.Conservation.{got, moments, state_after_steps, replies_of};
ghost use Rattle.strm_machine.specs.Moments.{moment_of, got_in};
ghost use Rattle.strm_laws.specs.Starts.{run_start};
ghost use Rattle.strm_machine.specs.Reactions.{react};
ghost use Rattle.strm_machine.specs.declared.replies.Reply.TheVariants as replies;
ghost use Rattle.strm_machine.specs.declared.steps.Step.TheVariants as steps;
ghost use Rattle.strm_memory.specs.Bytes.{IsBytes, put_at};
ghost use Rattle.strm_carry_laws.specs.OneStream.{carried_type, reads_of, piece_of, piece_steps, script_of, CanCarry, bytes_as_items, dumped, AreSettled};
ghost use Rattle.strm_carry_laws.specs.Serving.{rests, serving, Drains, Brings};

// Bytes are put into the writer's memory.
#[tactic(none)]
fn pokes()
    ensures { (m0 m1 p : List ℕ) (n : ℕ) → length m0 ≡ 64 → 0 < length p → length p ≤ 64 →
        react (rests m0 m1 n) (steps.Poke 0 0 p)
        ≡ record { reply = replies.Done; state = rests (put_at m0 0 p) m1 n } }
{}

// A write waits.
#[tactic(none)]
fn opens()
    ensures { (m0 m1 : List ℕ) (n k : ℕ) → length m0 ≡ 64 → 0 < k → k ≤ 64 →
        react (rests m0 m1 n) (steps.Write 0 carried_type 1 0 k)
        ≡ record { reply = replies.Code codes.Blocked; state = serving m0 m1 n 0 k 0 false } }
{}

// A read meets it.
#[tactic(none)]
fn serves()
    ensures { (m0 m1 : List ℕ) (n a i j r : ℕ) (met : Bool) →
        IsBytes m0 → length m0 ≡ 64 → length m1 ≡ 64 →
        n + 64 < 2 ^ 128 → 0 < j → a + j ≤ 64 → 0 < r → r ≤ 64 →
        react (serving m0 m1 n a j i met) (steps.Read 1 carried_type 1 0 r)
        ≡ record {
          reply = replies.Code (codes.Completed (min r j));
          state = serving m0 (take (min r j) (drop a m0) ++ drop (min r j) m1)
              (n + min r j) (a + 1 * min r j) (j - min r j) (i + min r j) true;
        } }
{}

// What was read is dumped.
#[tactic(none)]
fn dumps()
    ensures { (m0 m1 : List ℕ) (n a j i c : ℕ) (met : Bool) → length m1 ≡ 64 → 0 < c → c ≤ 64 →
        react (serving m0 m1 n a j i met) (steps.Dump 1 0 c)
        ≡ record { reply = replies.Bytes (take c m1); state = serving m0 m1 n a j i met } }
{}

// The writer is told.
#[tactic(none)]
fn tells()
    ensures { (m0 m1 : List ℕ) (n a i : ℕ) →
        react (serving m0 m1 n a 0 i true) (steps.Event 0 1) ≡ record {
          reply = replies.Event (Some (codes.Completed i));
          state = rests m0 m1 n;
        } }
{}

// What is got of the stream in each of these steps: the bytes of a read, and nothing in any other.
#[tactic(none)]
fn gets()
    ensures read { (m0 m1 : List ℕ) (n a i j r : ℕ) (met : Bool) →
        IsBytes m0 → length m0 ≡ 64 → length m1 ≡ 64 →
        n + 64 < 2 ^ 128 → 0 < j → a + j ≤ 64 → 0 < r → r ≤ 64 →
        got_in 0 (moment_of (serving m0 m1 n a j i met) (steps.Read 1 carried_type 1 0 r))
        ≡ bytes_as_items (take (min r j) (drop a m0)) }
    ensures poke { (m0 m1 p : List ℕ) (n : ℕ) → length m0 ≡ 64 → 0 < length p → length p ≤ 64 →
        got_in 0 (moment_of (rests m0 m1 n) (steps.Poke 0 0 p)) ≡ [] }
    ensures write { (m0 m1 : List ℕ) (n k : ℕ) → length m0 ≡ 64 → 0 < k → k ≤ 64 →
        got_in 0 (moment_of (rests m0 m1 n) (steps.Write 0 carried_type 1 0 k)) ≡ [] }
    ensures dump { (m0 m1 : List ℕ) (n a j i c : ℕ) (met : Bool) → length m1 ≡ 64 → 0 < c → c ≤ 64 →
        got_in 0 (moment_of (serving m0 m1 n a j i met) (steps.Dump 1 0 c)) ≡ [] }
    ensures event { (m0 m1 : List ℕ) (n a i : ℕ) →
        got_in 0 (moment_of (serving m0 m1 n a 0 i true) (steps.Event 0 1)) ≡ [] }
{
    pokes();
    opens();
    serves();
    dumps();
    tells();
}

// All that a write has left is got, byte by byte in order.
#[tactic(none)]
fn drains()
    ensures { (f r j : ℕ) (m0 m1 : List ℕ) (n a i : ℕ) (met : Bool) → j ≤ f →
        IsBytes m0 → length m0 ≡ 64 → length m1 ≡ 64 →
        n + j + 64 < 2 ^ 128 → a + j ≤ 64 → 0 < r → r ≤ 64 →
        Drains m0 m1 n a j i met (reads_of f r j) }
{
    serves();
    dumps();
    gets();
}

// A piece comes over as it is.
#[tactic(none)]
fn brings()
    ensures { (r : ℕ) (m0 m1 p : List ℕ) (n : ℕ) →
        IsBytes m0 → IsBytes p → length m0 ≡ 64 → length m1 ≡ 64 →
        0 < length p → length p ≤ 64 → n + 128 < 2 ^ 128 → 0 < r → r ≤ 64 →
        Brings m0 m1 n p (piece_of r p) }
{
    pokes();
    opens();
    tells();
    gets();
    drains();
}

// All pieces come over, one after the other.
#[tactic(none)]
fn brings_all()
    ensures { (f w r : ℕ) (m0 m1 bytes : List ℕ) (n : ℕ) → length bytes ≤ f →
        IsBytes m0 → IsBytes bytes → length m0 ≡ 64 → length m1 ≡ 64 →
        n + length bytes + 128 < 2 ^ 128 → 0 < w → w ≤ 64 → 0 < r → r ≤ 64 →
        Brings m0 m1 n bytes (piece_steps f w r bytes) }
{
    brings();
}

/// What the stream got in the whole script is the bytes, in order, and as many were received on it, which is the
/// only one. The replies to the dumps together are the bytes, and the run goes on behind each reply.
#[tactic(none)]
pub fn carries()
    ensures got { (w r : ℕ) (bytes : List ℕ) → CanCarry w r bytes →
        got 0 (moments run_start (script_of w r bytes)) ≡ bytes_as_items bytes }
    ensures received { (w r : ℕ) (bytes : List ℕ) → CanCarry w r bytes →
        map (λ s. s.received) (state_after_steps run_start (script_of w r bytes)).streams
        ≡ length bytes ∷ [] }
    ensures dumped { (w r : ℕ) (bytes : List ℕ) → CanCarry w r bytes →
        dumped (replies_of (moments run_start (script_of w r bytes))) ≡ bytes }
    ensures settled { (w r : ℕ) (bytes : List ℕ) → CanCarry w r bytes →
        AreSettled (replies_of (moments run_start (script_of w r bytes))) }
{
    brings_all();
}
