//! Addresses for new machines.
ghost use Rattle.std.specs.Prelude.{◌≡◌, ◌<◌, is_some, length, position, IfSome};
ghost use Rattle.allot.specs.Addresses.{free_address, has_address, holds_address, is_reserved, may_be_given, set_prefix};

use net_addr::{Addr, Prefix};
use net_rows::{Machine, Tables};
use settings::Settings;

/// 100.100.100.100, where clients answer MagicDNS.
pub const SERVICE_V4: u128 = 0x6464_6464;

/// fd7a:115c:a1e0::53, where clients answer MagicDNS.
pub const SERVICE_V6: u128 = 0xfd7a_115c_a1e0_0000_0000_0000_0000_0053;

/// 100.115.92.0, the first address of 100.115.92.0/23, which ChromeOS gives its virtual machines.
pub const CHROMEOS_FIRST: u128 = 0x6473_5c00;

/// 100.115.93.255, the last of them.
pub const CHROMEOS_LAST: u128 = 0x6473_5dff;

fn is_reserved(addr: Addr) -> bool
    ensures value { result ≡ is_reserved addr }
{
    let bits = addr.bits();
    if addr.is_v6() {
        bits == SERVICE_V6
    } else {
        bits == SERVICE_V4 || (CHROMEOS_FIRST <= bits && bits <= CHROMEOS_LAST)
    }
}

fn holds(machine: &Machine, addr: Addr) -> bool
    ensures value { result ≡ holds_address addr machine.now }
{
    machine.v4 == addr || machine.v6 == addr
}

/// The place of the first machine that has the address.
fn first_with_address(machines: &[Machine], addr: Addr) -> Option<usize>
    ensures value { result ≡ position (holds_address addr) machines.now }
{
    machines.iter().position(|machine| holds(machine, addr))
}

/// The place of a machine that has the address, if one has it. The guessed place is looked at first:
/// machines mostly have their addresses in their order.
#[tactic(auto, using(crate::proofs::SearchLemmas::some_position))]
fn place_with_address(machines: &[Machine], guess: usize, addr: Addr) -> Option<usize>
    ensures value { is_some result ≡ has_address machines.now addr }
    ensures place { IfSome result (λ place. place < length machines.now) }
{
    if let Some(machine) = machines.get(guess)
        && holds(machine, addr)
    {
        return Some(guess);
    }
    first_with_address(machines, addr)
}

/// Whether the address may be given: it is neither the first nor the last of the prefix, and isn't
/// reserved.
fn may_be_given(prefix: &Prefix, addr: Addr) -> bool
    ensures value { result ≡ may_be_given prefix.now addr }
{
    addr.bits() != prefix.base().bits() && addr.bits() != prefix.last() && !is_reserved(addr)
}

/// The least address of the prefix that is free: it isn't the first or the last, isn't reserved, and
/// no machine has it. `None` if no address is free.
fn least_free(prefix: &Prefix, machines: &[Machine]) -> Option<Addr>
    ensures value { result ≡ free_address prefix.now machines.now }
{
    let v6 = prefix.base().is_v6();
    let mut guess = 0;
    for bits in prefix.base().bits()..prefix.last() {
        let addr = Addr::new(v6, bits);
        if may_be_given(prefix, addr) {
            match place_with_address(machines, guess, addr) {
                Some(place) => guess = place + 1,
                None => return Some(addr),
            }
        }
    }
    None
}

/// The least address of the family's set prefix that is free. `None` if no address is free.
pub fn least_address(settings: &Settings, tables: &Tables, v6: bool) -> Option<Addr>
    ensures value { result ≡ free_address (set_prefix settings.now v6) tables.now.rows.machines }
{
    let fields = settings.fields();
    let prefix = if v6 {
        &fields.prefix_v6
    } else {
        &fields.prefix_v4
    };
    least_free(prefix, tables.machines())
}
