// The numbers of inputs and of outputs, which stand at the front of the first body of both files.
ghost use Rattle.std.specs.Prelude.{◌≡◌, ◌≤◌, length};
ghost use Rattle.contents.specs.Arity.{arity_fits};

use wire::limits::{MOST_INPUTS, MOST_OUTPUTS};
use wire::numbers::get16;

// Whether the numbers of inputs and outputs are in range.
pub fn arity_fits(head: &[u8]) -> bool
    requires { 4 ≤ length head.now }
    ensures { result ≡ arity_fits head.now }
{
    let outputs = get16(head, 2);
    get16(head, 0) <= MOST_INPUTS && 1 <= outputs && outputs <= MOST_OUTPUTS
}
