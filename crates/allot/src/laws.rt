//! Laws of the definitions. None of these functions does anything: each states a law.
ghost use Rattle.std.specs.Prelude.{◌≡◌, ◌≢◌, ◌↔◌, ◌<◌, ◌≤◌, ℕ, List, Contains, Some, None, codes, length, true, false};
ghost use Rattle.net_addr.specs.AddrTexts.{addr_text};
ghost use Rattle.net_addr.specs.Bits.{Address, Block};
ghost use Rattle.net_addr.specs.Blocks.{holds};
ghost use Rattle.net_rows.specs.declared.limits.TheConstants.{MACHINE_LIMIT};
ghost use Rattle.net_rows.specs.declared.machine.Machine.{Machine};
ghost use Rattle.tail_base.specs.Labels.{is_label, label_of_host, numbered_label};
ghost use Rattle.allot.specs.declared.addresses.TheConstants.{CHROMEOS_FIRST, CHROMEOS_LAST, SERVICE_V4, SERVICE_V6};
ghost use Rattle.allot.specs.Addresses.{IsFree, free_address, has_address, may_be_given};
ghost use Rattle.allot.specs.Names.{free_name, has_name};

/// The address that is given is one of the prefix that may be given and that no machine has. Machines
/// have each smaller one that may be given. None is given exactly if machines have all of them.
pub fn the_least_free_address_is_given()
    ensures fresh { (p : Block) (machines : List Machine) (a : Address)
        → free_address p machines ≡ Some a → IsFree p machines a }
    ensures least { (p : Block) (machines : List Machine) (a : Address)
        → free_address p machines ≡ Some a → (b : Address) → holds p b ≡ true
        → may_be_given p b ≡ true → b.bits < a.bits → has_address machines b ≡ true }
    ensures none { (p : Block) (machines : List Machine)
        → (free_address p machines ≡ None) ↔ ((b : Address) → holds p b ≡ true
        → may_be_given p b ≡ true → has_address machines b ≡ true) }
{}

/// The name that is given is a label that no machine has: the host's own label if that is free, else
/// with the least number from 1 on that is free, so that machines have it with all smaller numbers.
pub fn the_least_free_name_is_given()
    ensures fresh { (machines : List Machine) (host : List ℕ) → length machines ≤ MACHINE_LIMIT
        → (m : Machine) → Contains machines m → m.name ≢ free_name machines host }
    ensures label { (machines : List Machine) (host : List ℕ) → length machines ≤ MACHINE_LIMIT
        → is_label (free_name machines host) ≡ true }
    ensures bare { (machines : List Machine) (host : List ℕ)
        → has_name machines (label_of_host host) ≡ false
        → free_name machines host ≡ label_of_host host }
    ensures numbered { (machines : List Machine) (host : List ℕ) → length machines ≤ MACHINE_LIMIT
        → has_name machines (label_of_host host) ≡ true
        → (n : ℕ) × (1 ≤ n) × (free_name machines host ≡ numbered_label (label_of_host host) n)
        × ((k : ℕ) → 1 ≤ k → k < n
        → has_name machines (numbered_label (label_of_host host) k) ≡ true) }
{}

/// The addresses that no machine gets, as texts: Tailscale's own service, and the range of ChromeOS.
pub fn the_numbers_are_these()
    ensures service_v4 { addr_text (record { v6 = false; bits = SERVICE_V4 })
        ≡ codes "100.100.100.100" }
    ensures service_v6 { addr_text (record { v6 = true; bits = SERVICE_V6 })
        ≡ codes "fd7a:115c:a1e0::53" }
    ensures chromeos_first { addr_text (record { v6 = false; bits = CHROMEOS_FIRST })
        ≡ codes "100.115.92.0" }
    ensures chromeos_last { addr_text (record { v6 = false; bits = CHROMEOS_LAST })
        ≡ codes "100.115.93.255" }
{}
