// The printed texts of the keys.
ghost use Rattle.std.specs.Prelude.{◌≡◌, ◌<◌, Some, length, map, slice_get};
ghost use Rattle.tcd_plan.specs.Keys.{key_texts};

use crate::PlanKey;

static KEY_TEXTS: [&str; 32] = [
    "root",
    "rom",
    "rom.at",
    "rom.len",
    "ram",
    "ram.at",
    "ram.len",
    "devices",
    "devices.at",
    "devices.len",
    "devices.lo",
    "devices.hi",
    "csa",
    "csa.at",
    "csa.areas",
    "csa.reserve",
    "sp",
    "isp",
    "biv",
    "btv",
    "irqs",
    "traps",
    "start",
    "start.ie",
    "start.ccpn",
    "start.is",
    "globals",
    "globals.a0",
    "globals.a1",
    "globals.a8",
    "globals.a9",
    "core",
];

/// Returns the text of a plan's key as error lines print the key, such as `csa.areas`.
pub fn key_text(key: PlanKey) -> &'static str
    requires { key.0 < length key_texts }
    ensures { slice_get key_texts key.0 ≡ Some result.now }
{
    printed_key_texts()[key.0 as usize]
}

/// Returns the texts of all printed keys, in the order of their numbers.
fn printed_key_texts() -> &'static [&'static str]
    ensures texts { map (λ t. t.now) result.now ≡ key_texts }
    ensures count { length result.now ≡ length key_texts }
{
    &KEY_TEXTS
}
