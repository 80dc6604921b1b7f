//! Functions by their address.

ghost use Rattle.std.specs.Prelude.{◌≡◌, ◌==◌, option_map, position, slice_get, IfSome};
ghost use Rattle.std.specs.Option.{option_and_then};
ghost use Rattle.cet_rules.specs.Image.{function_at};
ghost use Rattle.cet_rules.specs.Regular.{AreFunctions};
ghost use Rattle.cet_image.specs.Lookup.{IsShortestAt, StartsSplitAt};

use cet_rules::{Function, Image};

/// The number of a function of an image, from 0: its place among `functions`.
#[derive(Clone, Copy, Debug, PartialEq, Eq)]
pub struct FuncId(pub u32);

// How many functions start before `at`.
fn count_before(functions: &[Function], at: u64) -> usize
    requires { AreFunctions functions.now }
    ensures { StartsSplitAt functions.now at result }
{
    functions.partition_point(|f| f.start < at)
}

/// The function that starts at `at`, and of several the shortest. None exactly where no function starts there. With n functions
/// it takes log n steps.
pub fn function_at(image: &Image, at: u64) -> Option<FuncId>
    // It is the first one that starts there.
    ensures place { option_map (λ id. id.0) result ≡ position (λ f. f.start == at) image.now.functions }
    ensures function { option_and_then (λ id. slice_get image.now.functions id.0) result ≡ function_at image.now at }
    // No other function that starts there is shorter.
    ensures shortest { IfSome result (IsShortestAt image.now at) }
{
    let functions = image.functions.as_slice();
    let place = count_before(functions, at);
    let function = functions.get(place)?;
    if function.start == at {
        Some(FuncId(place as u32))
    } else {
        None
    }
}
