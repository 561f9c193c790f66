//! The laws of a stream's reading.

ghost use Rattle.std.specs.Prelude.{◌≡◌, List, ℕ, ◌++◌, ◌<◌};
ghost use Rattle.strm_frames.specs.Frames.{Frame};
ghost use Rattle.strm_frames.specs.Streams.{Splits, Faults};
ghost use Rattle.strm_frames.specs.declared.errors.Fault.{Fault};

/// Bytes have one reading: they are whole frames and a rest in one way at most, or have one first fault.
/// A fault stays the first one, however the stream goes on.
pub fn one_reading()
    ensures splits { (bytes : List ℕ) (frames others : List Frame) (rest left : List ℕ) →
        Splits bytes frames rest → Splits bytes others left → (frames ≡ others) × (rest ≡ left) }
    ensures apart { (bytes : List ℕ) (frames : List Frame) (rest : List ℕ) (fault : Fault) →
        Splits bytes frames rest → ¬ Faults bytes fault }
    ensures fault { (bytes : List ℕ) (fault other : Fault) →
        Faults bytes fault → Faults bytes other → fault ≡ other }
    ensures stays { (bytes more : List ℕ) (fault : Fault) →
        Faults bytes fault → Faults (bytes ++ more) fault }
{}
