//! Tuples of one to eight scalars as the items of their payload.
//!
//! Source: ours; wasmtime has `Lift` and `Lower`, which read and write a guest's memory.

use crate::field_lists::{Fields, tuple_of, value_of};
use crate::payloaded::Payloaded;
use crate::typed_fields::Field;
use strm_codes::payloads::Payload;
use strm_codes::values::Value;

impl<A: Field> Payloaded for (A,) {
    ghost use Rattle.std.specs.Prelude.{[], ◌∷◌};
    ghost use Rattle.strm_codes.specs.declared.payloads.Payload.TheVariants.{Tuple};
    ghost use Rattle.std.proofs.Common.{refl};
    ghost use Rattle.strm_memory.specs.Apart.{one_apart, seen_apart};

    ghost payload = { Tuple (A.scalar ∷ []) };

    ghost item = { λ x. A.number x.0 ∷ [] };

    ghost apart = { seen_apart (λ x. x.0) (λ x. record { 0 = x }) (λ x. refl)
        (one_apart A.number A.apart) };

    fn payload() -> Payload {
        tuple_of(&[A::scalar()])
    }

    fn lift(value: &Value) -> Option<(A,)> {
        let (a, ()) = <(A, ())>::read(value.as_slice())?;
        Some((a,))
    }

    fn lower(&self) -> Value {
        value_of((self.0, ()))
    }

    fn take_bytes(_values: &mut Vec<(A,)>) -> Option<Vec<u8>> {
        None
    }
}

impl<A: Field, B: Field> Payloaded for (A, B) {
    ghost use Rattle.std.specs.Prelude.{[], ◌∷◌};
    ghost use Rattle.strm_codes.specs.declared.payloads.Payload.TheVariants.{Tuple};
    ghost use Rattle.strm_memory.specs.Apart.{one_apart, more_apart};

    ghost payload = { Tuple (A.scalar ∷ B.scalar ∷ []) };

    ghost item = { λ x. A.number x.0 ∷ B.number x.1 ∷ [] };

    ghost apart = { more_apart A.number _ A.apart (one_apart B.number B.apart) };

    fn payload() -> Payload {
        tuple_of(&[A::scalar(), B::scalar()])
    }

    fn lift(value: &Value) -> Option<(A, B)> {
        let (a, (b, ())) = <(A, (B, ()))>::read(value.as_slice())?;
        Some((a, b))
    }

    fn lower(&self) -> Value {
        value_of((self.0, (self.1, ())))
    }

    fn take_bytes(_values: &mut Vec<(A, B)>) -> Option<Vec<u8>> {
        None
    }
}

impl<A: Field, B: Field, C: Field> Payloaded for (A, B, C) {
    ghost use Rattle.std.specs.Prelude.{[], ◌∷◌};
    ghost use Rattle.strm_codes.specs.declared.payloads.Payload.TheVariants.{Tuple};
    ghost use Rattle.std.proofs.Common.{refl};
    ghost use Rattle.strm_memory.specs.Apart.{one_apart, more_apart, seen_apart};

    ghost payload = { Tuple (A.scalar ∷ B.scalar ∷ C.scalar ∷ []) };

    ghost item = { λ x. A.number x.0 ∷ B.number x.1 ∷ C.number x.2 ∷ [] };

    ghost apart = { seen_apart (λ x. (x.0, (x.1, x.2))) (λ x. (x.0, x.1.0, x.1.1)) (λ x. refl)
        (more_apart A.number _ A.apart (more_apart B.number _ B.apart (one_apart C.number C.apart))) };

    fn payload() -> Payload {
        tuple_of(&[A::scalar(), B::scalar(), C::scalar()])
    }

    fn lift(value: &Value) -> Option<(A, B, C)> {
        let (a, (b, (c, ()))) = <(A, (B, (C, ())))>::read(value.as_slice())?;
        Some((a, b, c))
    }

    fn lower(&self) -> Value {
        value_of((self.0, (self.1, (self.2, ()))))
    }

    fn take_bytes(_values: &mut Vec<(A, B, C)>) -> Option<Vec<u8>> {
        None
    }
}

impl<A: Field, B: Field, C: Field, D: Field> Payloaded for (A, B, C, D) {
    ghost use Rattle.std.specs.Prelude.{[], ◌∷◌};
    ghost use Rattle.strm_codes.specs.declared.payloads.Payload.TheVariants.{Tuple};
    ghost use Rattle.std.proofs.Common.{refl};
    ghost use Rattle.strm_memory.specs.Apart.{one_apart, more_apart, seen_apart};

    ghost payload = { Tuple (A.scalar ∷ B.scalar ∷ C.scalar ∷ D.scalar ∷ []) };

    ghost item = { λ x. A.number x.0 ∷ B.number x.1 ∷ C.number x.2 ∷ D.number x.3 ∷ [] };

    ghost apart = { seen_apart (λ x. (x.0, (x.1, (x.2, x.3)))) (λ x. (x.0, x.1.0, x.1.1.0, x.1.1.1)) (λ x. refl)
        (more_apart A.number _ A.apart (more_apart B.number _ B.apart (more_apart C.number _ C.apart (one_apart D.number D.apart)))) };

    fn payload() -> Payload {
        tuple_of(&[A::scalar(), B::scalar(), C::scalar(), D::scalar()])
    }

    fn lift(value: &Value) -> Option<(A, B, C, D)> {
        let (a, (b, (c, (d, ())))) = <(A, (B, (C, (D, ()))))>::read(value.as_slice())?;
        Some((a, b, c, d))
    }

    fn lower(&self) -> Value {
        value_of((self.0, (self.1, (self.2, (self.3, ())))))
    }

    fn take_bytes(_values: &mut Vec<(A, B, C, D)>) -> Option<Vec<u8>> {
        None
    }
}

impl<A: Field, B: Field, C: Field, D: Field, E: Field> Payloaded for (A, B, C, D, E) {
    ghost use Rattle.std.specs.Prelude.{[], ◌∷◌};
    ghost use Rattle.strm_codes.specs.declared.payloads.Payload.TheVariants.{Tuple};
    ghost use Rattle.std.proofs.Common.{refl};
    ghost use Rattle.strm_memory.specs.Apart.{one_apart, more_apart, seen_apart};

    ghost payload = { Tuple (A.scalar ∷ B.scalar ∷ C.scalar ∷ D.scalar ∷ E.scalar ∷ []) };

    ghost item = { λ x. A.number x.0 ∷ B.number x.1 ∷ C.number x.2 ∷ D.number x.3 ∷ E.number x.4 ∷ [] };

    ghost apart = { seen_apart (λ x. (x.0, (x.1, (x.2, (x.3, x.4))))) (λ x. (x.0, x.1.0, x.1.1.0, x.1.1.1.0, x.1.1.1.1)) (λ x. refl)
        (more_apart A.number _ A.apart (more_apart B.number _ B.apart (more_apart C.number _ C.apart (more_apart D.number _ D.apart (one_apart E.number E.apart))))) };

    fn payload() -> Payload {
        tuple_of(&[
            A::scalar(),
            B::scalar(),
            C::scalar(),
            D::scalar(),
            E::scalar(),
        ])
    }

    fn lift(value: &Value) -> Option<(A, B, C, D, E)> {
        let (a, (b, (c, (d, (e, ()))))) = <(A, (B, (C, (D, (E, ())))))>::read(value.as_slice())?;
        Some((a, b, c, d, e))
    }

    fn lower(&self) -> Value {
        value_of((self.0, (self.1, (self.2, (self.3, (self.4, ()))))))
    }

    fn take_bytes(_values: &mut Vec<(A, B, C, D, E)>) -> Option<Vec<u8>> {
        None
    }
}

impl<A: Field, B: Field, C: Field, D: Field, E: Field, F: Field> Payloaded for (A, B, C, D, E, F) {
    ghost use Rattle.std.specs.Prelude.{[], ◌∷◌};
    ghost use Rattle.strm_codes.specs.declared.payloads.Payload.TheVariants.{Tuple};
    ghost use Rattle.std.proofs.Common.{refl};
    ghost use Rattle.strm_memory.specs.Apart.{one_apart, more_apart, seen_apart};

    ghost payload = { Tuple (A.scalar ∷ B.scalar ∷ C.scalar ∷ D.scalar ∷ E.scalar ∷ F.scalar ∷ []) };

    ghost item = { λ x. A.number x.0 ∷ B.number x.1 ∷ C.number x.2 ∷ D.number x.3 ∷ E.number x.4 ∷ F.number x.5 ∷ [] };

    ghost apart = { seen_apart (λ x. (x.0, (x.1, (x.2, (x.3, (x.4, x.5)))))) (λ x. (x.0, x.1.0, x.1.1.0, x.1.1.1.0, x.1.1.1.1.0, x.1.1.1.1.1)) (λ x. refl)
        (more_apart A.number _ A.apart (more_apart B.number _ B.apart (more_apart C.number _ C.apart (more_apart D.number _ D.apart (more_apart E.number _ E.apart (one_apart F.number F.apart)))))) };

    fn payload() -> Payload {
        tuple_of(&[
            A::scalar(),
            B::scalar(),
            C::scalar(),
            D::scalar(),
            E::scalar(),
            F::scalar(),
        ])
    }

    fn lift(value: &Value) -> Option<(A, B, C, D, E, F)> {
        let (a, (b, (c, (d, (e, (f, ())))))) = <(A, (B, (C, (D, (E, (F, ()))))))>::read(
            value.as_slice(),
        )?;
        Some((a, b, c, d, e, f))
    }

    fn lower(&self) -> Value {
        value_of((self.0, (self.1, (self.2, (self.3, (self.4, (self.5, ())))))))
    }

    fn take_bytes(_values: &mut Vec<(A, B, C, D, E, F)>) -> Option<Vec<u8>> {
        None
    }
}

impl<A: Field, B: Field, C: Field, D: Field, E: Field, F: Field, G: Field> Payloaded
    for (A, B, C, D, E, F, G) {
    ghost use Rattle.std.specs.Prelude.{[], ◌∷◌};
    ghost use Rattle.strm_codes.specs.declared.payloads.Payload.TheVariants.{Tuple};
    ghost use Rattle.std.proofs.Common.{refl};
    ghost use Rattle.strm_memory.specs.Apart.{one_apart, more_apart, seen_apart};

    ghost payload = { Tuple (A.scalar ∷ B.scalar ∷ C.scalar ∷ D.scalar ∷ E.scalar ∷ F.scalar ∷ G.scalar ∷ []) };

    ghost item = { λ x. A.number x.0 ∷ B.number x.1 ∷ C.number x.2 ∷ D.number x.3 ∷ E.number x.4 ∷ F.number x.5 ∷ G.number x.6 ∷ [] };

    ghost apart = { seen_apart (λ x. (x.0, (x.1, (x.2, (x.3, (x.4, (x.5, x.6))))))) (λ x. (x.0, x.1.0, x.1.1.0, x.1.1.1.0, x.1.1.1.1.0, x.1.1.1.1.1.0, x.1.1.1.1.1.1)) (λ x. refl)
        (more_apart A.number _ A.apart (more_apart B.number _ B.apart (more_apart C.number _ C.apart (more_apart D.number _ D.apart (more_apart E.number _ E.apart (more_apart F.number _ F.apart (one_apart G.number G.apart))))))) };

    fn payload() -> Payload {
        tuple_of(&[
            A::scalar(),
            B::scalar(),
            C::scalar(),
            D::scalar(),
            E::scalar(),
            F::scalar(),
            G::scalar(),
        ])
    }

    fn lift(value: &Value) -> Option<(A, B, C, D, E, F, G)> {
        let (a, (b, (c, (d, (e, (f, (g, ()))))))) = <(A, (B, (C, (D, (E, (F, (G, ())))))))>::read(
            value.as_slice(),
        )?;
        Some((a, b, c, d, e, f, g))
    }

    fn lower(&self) -> Value {
        value_of((
            self.0,
            (self.1, (self.2, (self.3, (self.4, (self.5, (self.6, ())))))),
        ))
    }

    fn take_bytes(_values: &mut Vec<(A, B, C, D, E, F, G)>) -> Option<Vec<u8>> {
        None
    }
}

impl<A: Field, B: Field, C: Field, D: Field, E: Field, F: Field, G: Field, H: Field> Payloaded
    for (A, B, C, D, E, F, G, H) {
    ghost use Rattle.std.specs.Prelude.{[], ◌∷◌};
    ghost use Rattle.strm_codes.specs.declared.payloads.Payload.TheVariants.{Tuple};
    ghost use Rattle.std.proofs.Common.{refl};
    ghost use Rattle.strm_memory.specs.Apart.{one_apart, more_apart, seen_apart};

    ghost payload = { Tuple (A.scalar ∷ B.scalar ∷ C.scalar ∷ D.scalar ∷ E.scalar ∷ F.scalar ∷ G.scalar ∷ H.scalar ∷ []) };

    ghost item = { λ x. A.number x.0 ∷ B.number x.1 ∷ C.number x.2 ∷ D.number x.3 ∷ E.number x.4 ∷ F.number x.5 ∷ G.number x.6 ∷ H.number x.7 ∷ [] };

    ghost apart = { seen_apart (λ x. (x.0, (x.1, (x.2, (x.3, (x.4, (x.5, (x.6, x.7)))))))) (λ x. (x.0, x.1.0, x.1.1.0, x.1.1.1.0, x.1.1.1.1.0, x.1.1.1.1.1.0, x.1.1.1.1.1.1.0, x.1.1.1.1.1.1.1)) (λ x. refl)
        (more_apart A.number _ A.apart (more_apart B.number _ B.apart (more_apart C.number _ C.apart (more_apart D.number _ D.apart (more_apart E.number _ E.apart (more_apart F.number _ F.apart (more_apart G.number _ G.apart (one_apart H.number H.apart)))))))) };

    fn payload() -> Payload {
        tuple_of(&[
            A::scalar(),
            B::scalar(),
            C::scalar(),
            D::scalar(),
            E::scalar(),
            F::scalar(),
            G::scalar(),
            H::scalar(),
        ])
    }

    fn lift(value: &Value) -> Option<(A, B, C, D, E, F, G, H)> {
        let (a, (b, (c, (d, (e, (f, (g, (h, ())))))))) = <(
            A,
            (B, (C, (D, (E, (F, (G, (H, ()))))))),
        )>::read(value.as_slice())?;
        Some((a, b, c, d, e, f, g, h))
    }

    fn lower(&self) -> Value {
        value_of((
            self.0,
            (
                self.1,
                (self.2, (self.3, (self.4, (self.5, (self.6, (self.7, ())))))),
            ),
        ))
    }

    fn take_bytes(_values: &mut Vec<(A, B, C, D, E, F, G, H)>) -> Option<Vec<u8>> {
        None
    }
}
