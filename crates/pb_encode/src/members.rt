ghost use Rattle.std.specs.Prelude.{◌≡◌, ◌≢◌, ◌<◌, ◌≤◌, length, IfOk, All, AllPairs, slice_index};
ghost use Rattle.unit_catalog.specs.Order.{AreMembers};
ghost use Rattle.pb_encode.specs.Places.{HasPlaces};

use osgi_version::{List, NoMemory};
use std::alloc::Global;
use unit_catalog::Catalog;
use unit_model::{Required, Unit, UnitName};

/// Members of a catalog, in the order of their names. The n-th has the variable n.
#[derive(Drop)]
pub struct Members<'a> {
    catalog: &'a Catalog,
    numbers: &'a [u32],
    // by the number of each unit of the catalog, and 0 for one that is no member
    variables: Vec<u32>,
    ghost sound: { AreMembers catalog.now numbers.now },
    ghost placed: { HasPlaces numbers.now variables.items },
}

impl<'a> Members<'a> {
    ghost use Rattle.std.specs.Prelude.{◌≡◌, IfOk};
    ghost use Rattle.unit_catalog.specs.Order.{AreMembers, units_at};
    ghost use Rattle.pb_encode.specs.UnitsOf.{units_of, numbers_of};

    /// The members of these numbers. Takes as much time and memory as the catalog has units.
    pub fn new(catalog: &'a Catalog, numbers: &'a List<u32>) -> Result<Members<'a>, NoMemory>
        requires { AreMembers catalog.now numbers.now }
        ensures units { IfOk result (λ members. units_of members ≡ units_at catalog.now numbers.now) }
        ensures numbers { IfOk result (λ members. numbers_of members ≡ numbers.now) }
    {
        let variables = places(numbers.allocator(), numbers.items(), catalog.len() as usize)?;
        Ok(Members {
            catalog,
            numbers: numbers.items(),
            variables,
        })
    }
}

impl Members<'_> {
    ghost use Rattle.std.specs.Prelude.{◌≡◌, ◌<◌, ◌≤◌, length, Some, IfOk, AllPairs, slice_get, vec_len};
    ghost use Rattle.std.specs.Option.{option_to_list};
    ghost use Rattle.pb_rows.specs.Deciding.{matches, same_name};
    ghost use Rattle.pb_rows.specs.Members.{variables};
    ghost use Rattle.pb_encode.specs.Places.{IsVariableAt, AreFound};
    ghost use Rattle.pb_encode.specs.UnitsOf.{units_of, numbers_of};

    /// The allocator that the members are kept by.
    pub fn allocator(&self) -> Global {
        *self.variables.allocator()
    }

    /// How many members there are.
    pub fn len(&self) -> usize
        ensures value { result ≡ length (units_of self.now) }
        ensures few { result ≤ 8192 }
    {
        self.numbers.len()
    }

    /// The member at this place, from 0. Its variable is one more.
    pub fn unit(&self, place: usize) -> &Unit
        requires { place < length (units_of self.now) }
        ensures { slice_get (units_of self.now) place ≡ Some result.now }
    {
        match self.catalog.unit(self.numbers[place]) {
            Some(unit) => unit,
            None => unreachable!(),
        }
    }

    /// The variable of the unit of this number. None exactly where it is no member.
    pub fn variable(&self, number: u32) -> Option<u32>
        ensures { IsVariableAt (numbers_of self.now) number result }
    {
        let variable = place_at(&self.variables, number as usize);
        if variable == 0 { None } else { Some(variable) }
    }

    /// The variable of the member of this name. None exactly where no member has it.
    pub fn named(&self, name: &UnitName) -> Option<u32>
        ensures { option_to_list result ≡ variables (λ u. same_name u.name name.now) (units_of self.now) }
    {
        match self.catalog.find(name) {
            Some(number) => self.variable(number),
            None => None,
        }
    }

    /// The variables of the members that match the requirement, rising.
    pub fn matching(&self, required: &Required) -> Result<Vec<u32>, NoMemory>
        ensures value { IfOk result (λ found. found.items ≡ variables (matches required.now) (units_of self.now)) }
        ensures few { IfOk result (λ found. vec_len found ≤ 8192) }
    {
        let providers = self.catalog.providers(required)?;
        let mut found = self.variables_of(providers.items())?;
        found.sort_unstable();
        Ok(found)
    }

    /// The variables of those of the units that are members.
    fn variables_of(&self, numbers: &[u32]) -> Result<Vec<u32>, NoMemory>
        requires { AllPairs (λ m n. m < n) numbers.now }
        ensures { IfOk result (λ found. AreFound (numbers_of self.now) numbers.now found.items) }
    {
        let mut found = Vec::new(self.allocator());
        for number in numbers {
            if let Some(variable) = self.variable(*number) {
                found.push(variable)?;
            }
        }
        Ok(found)
    }
}

/// The place that stands at a number, or 0 past the end.
fn place_at(places: &[u32], number: usize) -> u32
    ensures { result ≡ slice_index places.now number }
{
    if number < places.len() {
        places[number]
    } else {
        0
    }
}

/// The place of each number, from 1.
fn places(alloc: Global, numbers: &[u32], units: usize) -> Result<Vec<u32>, NoMemory>
    requires few { length numbers.now ≤ 8192 }
    requires within { All (λ n. n < units) numbers.now }
    requires distinct { AllPairs (λ m n. m ≢ n) numbers.now }
    ensures { IfOk result (λ places. HasPlaces numbers.now places.items) }
{
    let mut places = vec![in alloc; 0; units]?;
    for (place, number) in numbers.iter().enumerate() {
        places[*number as usize] = place as u32 + 1;
    }
    Ok(places)
}
