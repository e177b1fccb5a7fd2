//! Parts of a record so far.

ghost use Rattle.std.specs.Prelude.{◌≡◌, ℕ, List, cond, true};
ghost use Rattle.std.specs.List.{list_any};
ghost use Rattle.std.specs.Str.{bytes_eq};
ghost use Rattle.std.specs.BTreeSet.{contains_text};
ghost use Rattle.wcps_types.specs.declared.records.Piece.{Piece};

use crate::records::Piece;
use arr_core::Domain;
use std::collections::BTreeSet;
use wcps_text::QueryName;

/// The parts so far, and the domain of those that have axes; without axes where none has. The names of the parts are
/// kept in order too, so that it is soon told whether one is taken.
#[derive(Drop)]
pub struct Pieces {
    pub domain: Domain,
    pub list: Vec<Piece>,
    pub names: BTreeSet<String>,
    pub ghost named: { (name : List ℕ) → contains_text names name ≡ list_any (λ (p : Piece). bytes_eq p.name name) list.items },
}

/// The parts so far, and the name of the next one, which none of them has. The set has this name too.
#[derive(Drop)]
pub struct NextPiece {
    pub domain: Domain,
    pub list: Vec<Piece>,
    pub names: BTreeSet<String>,
    pub name: QueryName,
    pub ghost named: { (x : List ℕ) → contains_text names x ≡ cond (bytes_eq name x) true (list_any (λ (p : Piece). bytes_eq p.name x) list.items) },
}
