//! The variables of the `for` list, and where each stands in it.

ghost use Rattle.std.specs.Prelude.{◌≡◌, [], ◌++◌, ◌∷◌, IfOk, ℕ, List};
ghost use Rattle.std.specs.BTreeMap.{get_by_text};
ghost use Rattle.wcps_types.specs.Bindings.{bound_to};
ghost use Rattle.wcps_types.specs.Names.{bound_place, AddsPlace};

use std::alloc::{AllocError, Global};
use std::collections::BTreeMap;
use wcps_text::QueryName;

/// A variable of the `for` list, and the place of the coverage that it stands for in one combination.
#[derive(Drop)]
pub struct Bound {
    pub variable: QueryName,
    pub coverage: usize,
}

/// Variables in order. The place of each is kept by its name too, so that it is soon found among many.
#[derive(Drop)]
pub struct Variables {
    pub list: Vec<Bound>,
    pub places: BTreeMap<String, usize>,
    pub ghost placed: { (name : List ℕ) → get_by_text places name ≡ bound_place name list.items },
}

impl Variables {
    /// No variable yet.
    pub fn new(alloc: Global) -> Variables
        ensures { result.list.items ≡ [] }
    {
        Variables {
            list: Vec::new(alloc),
            places: BTreeMap::new(alloc),
        }
    }

    /// The place of the variable of that name.
    pub fn place(&self, name: &QueryName) -> Option<usize>
        ensures { result ≡ bound_place name.now self.now.list.items }
    {
        self.places.get(name.as_str()).copied()
    }
}

/// Places by names with one more, where the name has none yet.
fn with_place(
    alloc: Global,
    places: BTreeMap<String, usize>,
    name: &QueryName,
    place: usize,
) -> Result<BTreeMap<String, usize>, AllocError>
    ensures { IfOk result (λ new. AddsPlace (get_by_text places) (get_by_text new) name.now place) }
{
    let mut places = places;
    if places.contains_key(name.as_str()) {
        return Ok(places);
    }
    places.insert(String::from_str(alloc, name.as_str())?, place)?;
    Ok(places)
}

/// The variables with one more, which stands for a coverage.
pub fn with_variable(
    alloc: Global,
    variables: Variables,
    name: &QueryName,
    coverage: usize,
) -> Result<Variables, AllocError>
    ensures { IfOk result (λ v. v.list.items ≡ variables.list.items ++ bound_to name.now coverage ∷ []) }
{
    let Variables { mut list, places } = variables;
    let places = with_place(alloc, places, name, list.len())?;
    let variable = QueryName::new(alloc, name.as_str())?;
    list.push(Bound { variable, coverage })?;
    Ok(Variables { list, places })
}
