//! Coverages whose cells are listed, as a query reads them.

use anyhow::{Result, bail};
use arr_core::{Name, Signature};
use std::alloc::{AllocError, Global};
use test_rows::{cut, domain, fields, numbers};
use wcps_mean::{CellError, Cells};
use wcps_types::TypedQuery;

/// What becomes of a cell that is read.
#[derive(Clone, Copy)]
enum Device {
    Sound,
    Failing,
    Damaged,
}

/// Named coverages, and for each a list of numbers a field in row-major order. Where a list ends, its last number
/// stands for the rest.
#[derive(Drop)]
pub struct Coverages {
    pub signatures: Vec<Signature>,
    numbers: Vec<Vec<Vec<i64>>>,
    device: Device,
    /// How many reads have failed.
    pub failures: u64,
    /// The place of each coverage of the query that is evaluated.
    listed: Vec<usize>,
}

/// Adds the numbers of a field.
fn add_field(alloc: Global, lists: &mut Vec<Vec<i64>>, words: &str) -> Result<()> {
    lists.push(numbers(alloc, words)?)?;
    Ok(())
}

impl Coverages {
    pub fn new(alloc: Global) -> Coverages {
        Coverages {
            signatures: Vec::new(alloc),
            numbers: Vec::new(alloc),
            device: Device::Sound,
            failures: 0,
            listed: Vec::new(alloc),
        }
    }

    /// Leaves no coverage.
    pub fn clear(&mut self) {
        self.signatures.clear();
        self.numbers.clear();
    }

    /// Sets what becomes of each cell that is read from now on.
    pub fn set_device(&mut self, word: &str) -> Result<()> {
        self.device = match word {
            "sound" => Device::Sound,
            "failing" => Device::Failing,
            "damaged" => Device::Damaged,
            _ => bail!("no such device"),
        };
        Ok(())
    }

    /// Adds a coverage, as `lai x(0:99) v:i16 7`; between the numbers of two fields stands `;`.
    pub fn add(&mut self, alloc: Global, words: &str) -> Result<()> {
        let (name, words) = cut(words);
        let (axes, words) = cut(words);
        let (list, cells) = cut(words);
        self.add_signature(alloc, name, axes, list)?;
        self.add_numbers(alloc, cells)
    }

    fn add_signature(&mut self, alloc: Global, name: &str, axes: &str, list: &str) -> Result<()> {
        let name = Name::new(alloc, name)?;
        let domain = domain(alloc, axes)?;
        let fields = fields(alloc, list)?;
        self.signatures.push(Signature {
            name,
            domain,
            fields,
        })?;
        Ok(())
    }

    fn add_numbers(&mut self, alloc: Global, cells: &str) -> Result<()> {
        let mut lists = Vec::new(alloc);
        for words in cells.split(';') {
            add_field(alloc, &mut lists, words)?;
        }
        self.numbers.push(lists)?;
        Ok(())
    }

    /// The place of the coverage with a name.
    fn place_of(&self, name: &str) -> usize {
        for (place, signature) in self.signatures.iter().enumerate() {
            if signature.name.as_str() == name {
                return place;
            }
        }
        self.signatures.len()
    }

    /// Makes ready for the evaluation of a query.
    pub fn list(&mut self, query: &TypedQuery) -> Result<(), AllocError> {
        self.listed.clear();
        for signature in query.coverages() {
            let place = self.place_of(signature.name.as_str());
            self.listed.push(place)?;
        }
        Ok(())
    }

    /// The number of a coverage and a field, by their places, at a point.
    fn number(&self, place: usize, field: usize, point: &[i32]) -> Option<i64> {
        let domain = &self.signatures.get(place)?.domain;
        if !domain.contains(point) {
            return None;
        }
        let list = self.numbers.get(place)?.get(field)?;
        let rank = usize::try_from(domain.rank(point)).ok()?;
        list.get(rank).or(list.last()).copied()
    }
}

impl Cells for Coverages {
    ghost use Rattle.std.specs.Prelude.{pos};

    ghost cells = { λ s c f p. pos 0 };

    ghost kept = { λ _. tt };

    ghost failures = { λ s. s.failures };

    ghost intact = { λ _. ⊥ };

    fn cell(&mut self, coverage: usize, field: usize, point: &[i32]) -> Result<i64, CellError> {
        match self.device {
            Device::Failing => {
                self.failures = self.failures.saturating_add(1);
                Err(CellError::DiskFault)
            }
            Device::Damaged => Err(CellError::Damaged),
            Device::Sound => {
                let place = self.listed.get(coverage).copied().unwrap_or(usize::MAX);
                self.number(place, field, point).ok_or(CellError::Damaged)
            }
        }
    }
}
