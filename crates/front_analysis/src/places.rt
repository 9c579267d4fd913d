//! Indices of rules by their names.
ghost use Rattle.std.specs.Prelude.{◌≡◌};
ghost use Rattle.front_analysis.specs.NamedPlaces.{last_name};

/// Returns the index of the last name that is equal to this one, if there is one.
pub fn rule_number(names: &Vec<&str>, name: &str) -> Option<usize>
    ensures { result ≡ last_name names.now.items name.now }
{
    let names = names.as_slice();
    let mut found = None;
    for (place, other) in names.iter().enumerate() {
        if *other == name {
            found = Some(place);
        }
    }
    found
}
