// G: the largest number of controlled drivers on a net, which is its degree, but at least 1.
ghost use Rattle.std.specs.Prelude.{◌≡◌};
ghost use Rattle.rules.specs.File.{board_of, nets_of};
ghost use Rattle.rules.specs.Drivers.{groups_of};
ghost use Rattle.select.specs.Turns.{Ready};

use chains::{TABLE, drivers_on};
use rules::Net;

// "G is the largest degree, but at least 1".
pub fn groups_of(file: &[u8], table: &[u16; TABLE], nets: usize) -> usize
    requires ready { Ready file.now table.now }
    requires nets_value { nets ≡ nets_of file.now }
    ensures { result ≡ groups_of (board_of file.now) }
{
    let mut most = 1;
    for n in 0..nets {
        most = most.max(drivers_on(table, Net(n as u16)));
    }
    most
}
