//! The catalogue: signatures in the order of their insertion, each under its name.

ghost use Rattle.std.specs.Prelude.{◌≡◌, ◌≤◌, ◌<◌, [], ◌∷◌, ◌++◌, length, slice_get, Contains, option_copied, Some, IfOk, OnOk, IfErr, OnErr, IsErrOf, IsTrue, ◌↔◌};
ghost use Rattle.arr_core.specs.Fields.{AreFields};
ghost use Rattle.catalogue.specs.Signatures.{names_of, listed, without, MayInsert, IsRefused, IsCatalogue};
ghost use Rattle.catalogue.specs.Bytes.{catalogue_bytes};

use crate::error::{InsertError, NoSuchCoverage};
use crate::lengths::signature_len;
use arr_core::{MAX_COVERAGES, Name, Signature};
use indexmap::IndexMap;
use std::alloc::{AllocError, Global};
use std::marker::Model;

/// A list of signatures in the order of their insertion, each with a name of its own.
#[derive(Drop)]
pub struct Catalogue {
    pub(crate) signatures: IndexMap<String, Signature>,
    bytes: u64,
}

impl Model for Catalogue {
    ghost use Rattle.std.specs.Prelude.{List};
    ghost use Rattle.arr_core.specs.declared.signature.Signature.{Signature};

    ghost Value = { List Signature };

    ghost use Rattle.catalogue.specs.Held.{signatures_of, IsHeld};

    ghost view = { λ c. signatures_of c.signatures.entries };

    ghost invariant = { λ c. IsHeld c.signatures.entries c.bytes };
}

impl Catalogue {
    /// A catalogue without coverages.
    pub fn new(alloc: Global) -> Catalogue
        ensures { result ≡ [] }
    {
        Catalogue {
            signatures: IndexMap::new(alloc),
            bytes: 4,
        }
    }

    /// Whether a coverage has a name.
    pub(crate) fn holds(&self, name: &Name) -> bool
        ensures { IsTrue result ↔ Contains (names_of self.now) name.now }
    {
        self.signatures.contains_key(name.as_str())
    }

    /// What `insert` answers to a signature where there is memory: `CoverageExists` where its name
    /// is held, else `BadDomain` where it has no axis, else `BadField` where it has no field, more
    /// than 16 or two of one name, else `TooManyCoverages` where 1,024 coverages are held.
    pub fn check(&self, signature: &Signature) -> Result<(), InsertError>
        ensures ok { OnOk result (MayInsert self.now signature.now) }
        ensures refused { IfErr result (λ e. IsRefused self.now signature.now e) }
        ensures no_memory { IsErrOf result InsertError.NoMemory → ⊥ }
    {
        if self.holds(&signature.name) {
            return Err(InsertError::CoverageExists);
        }
        if signature.domain.axes().is_empty() {
            return Err(InsertError::BadDomain);
        }
        if !signature.fields.are_fields() {
            return Err(InsertError::BadField);
        }
        if self.len() >= MAX_COVERAGES {
            return Err(InsertError::TooManyCoverages);
        }
        Ok(())
    }

    /// Adds a signature at the end. An error changes nothing.
    #[tactic(auto, using(crate::proofs::Held::held_small))]
    pub(crate) fn push(&mut self, signature: Signature) -> Result<(), AllocError>
        requires { MayInsert self.old signature }
        ensures pushed { OnOk result (self.new ≡ self.old ++ signature ∷ []) }
        ensures unchanged { OnErr result (self.new ≡ self.old) }
    {
        let bytes = signature_len(&signature);
        let alloc = *self.signatures.allocator();
        let name = String::from_str(alloc, signature.name.as_str())?;
        self.signatures.insert(name, signature)?;
        self.bytes += bytes;
        Ok(())
    }

    /// Adds a signature at the end. Refusals are those of `check`, and `NoMemory` where none was
    /// left; an error changes nothing.
    pub fn insert(&mut self, signature: Signature) -> Result<(), InsertError>
        ensures inserted { OnOk result (self.new ≡ self.old ++ signature ∷ []) }
        ensures ok { OnOk result (MayInsert self.old signature) }
        ensures refused { IfErr result (λ e. IsRefused self.old signature e) }
        ensures unchanged { OnErr result (self.new ≡ self.old) }
    {
        self.check(&signature)?;
        self.push(signature)?;
        Ok(())
    }

    /// Takes out the signature with a name; the others keep their order. Takes no memory.
    pub fn remove(&mut self, name: &Name) -> Result<(), NoSuchCoverage>
        ensures removed { OnOk result (self.new ≡ without name.now self.old) }
        ensures held { OnOk result (Contains (names_of self.old) name.now) }
        ensures absent { OnErr result (¬ Contains (names_of self.old) name.now) }
        ensures unchanged { OnErr result (self.new ≡ self.old) }
    {
        match self.signatures.shift_remove(name.as_str()) {
            Some(signature) => {
                self.bytes -= signature_len(&signature);
                Ok(())
            }
            None => Err(NoSuchCoverage),
        }
    }

    /// The signature of the coverage with a name. Takes no memory.
    pub fn describe(&self, name: &Name) -> Option<&Signature>
        ensures { option_copied result ≡ listed name.now self.now }
    {
        self.find(name.as_str())
    }

    /// The signature of the coverage whose name a text is. Takes no memory.
    pub fn find(&self, text: &str) -> Option<&Signature>
        ensures { option_copied result ≡ listed text.now self.now }
    {
        self.signatures.get(text)
    }

    /// How many coverages there are: at most 1,024, each with a name of its own.
    pub fn len(&self) -> usize
        ensures len { result ≡ length self.now }
        ensures catalogue { IsCatalogue self.now }
    {
        self.signatures.len()
    }

    /// Whether there is none.
    pub fn is_empty(&self) -> bool
        ensures { IsTrue result ↔ (self.now ≡ []) }
    {
        self.signatures.is_empty()
    }

    /// The signature at a place, in the order of insertion. Takes no memory.
    pub fn at(&self, place: usize) -> &Signature
        requires { place < length self.now }
        ensures { slice_get self.now place ≡ Some result.now }
    {
        match self.signatures.get_index(place) {
            Some((_name, signature)) => signature,
            None => unreachable!(),
        }
    }

    /// The signatures, in the order of their insertion.
    pub fn list(&self, alloc: Global) -> Result<Vec<Signature>, AllocError>
        ensures { IfOk result (λ list. list.items ≡ self.now) }
    {
        let mut list = Vec::with_capacity(alloc, self.signatures.len())?;
        for signature in self.signatures.values() {
            list.push(signature.copy(alloc)?)?;
        }
        Ok(list)
    }

    /// How many bytes `to_bytes` gives. Takes no memory.
    pub fn bytes_len(&self) -> u64
        ensures { result ≡ length (catalogue_bytes self.now) }
    {
        self.bytes
    }

    /// How many bytes `to_bytes` would give with one more signature, which has an axis, and 1 to 16
    /// fields with names of their own. Takes no memory.
    #[tactic(auto, using(crate::proofs::Held::held_small, crate::proofs::Held::longer))]
    pub fn bytes_len_with(&self, signature: &Signature) -> u64
        requires axes { 1 ≤ length signature.now.domain }
        requires fields { AreFields signature.now.fields }
        ensures { result ≡ length (catalogue_bytes (self.now ++ signature.now ∷ [])) }
    {
        self.bytes + signature_len(signature)
    }
}
