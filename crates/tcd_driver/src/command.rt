// The command that the arguments ask for.
ghost use Rattle.std.specs.Prelude.{◌≡◌, ◌≤◌, ◌&&◌, nat_le, map, string_bytes, IfSome};
ghost use Rattle.std.specs.Bool.{then_some};
ghost use Rattle.std.specs.Option.{option_map};
ghost use Rattle.tcd_driver.specs.Commands.{command, link_command_of, is_link, ship_command_of, is_ship, tasks_command_of, is_tasks, is_taskcert, fixed_arity_command_of, one_arg_command, two_arg_command, three_arg_command, four_arg_command, boot_command_of, bootgen_command_of, plain_command, generate, reading_of, CommandKeepsLimits};
ghost use Rattle.tcd_driver.specs.Gen.{gen_function_count};
ghost use Rattle.tcd_reading.specs.Outcomes.{IsCommandOutcome};

use crate::commands::asm::assemble_file;
use crate::commands::boot::check_boot_files;
use crate::commands::bootgen::generate_boot_source;
use crate::commands::cellcert::certify_cells;
use crate::commands::cells::check_cells;
use crate::commands::cert::certify_executable;
use crate::commands::cfg::draw_cfg;
use crate::commands::check::check_files;
use crate::commands::dis::disassemble_file;
use crate::commands::generating::certify_generated_image;
use crate::commands::link::link_files;
use crate::commands::report::report_on_cert;
use crate::commands::run::run_script_file;
use crate::commands::ship::{Shipment, ship_files};
use crate::commands::taskcert::certify_tasks;
use crate::commands::tasks::check_tasks;
use crate::distinct_names::are_distinct_names;
use std::alloc::Global;
use tc_script::script_number;
use tcd_base::Files;
use tcd_reading::Outcome;
use tcd_text::hex_number;

// A command has at most 65,535 arguments. So these are the most objects of `link`, sources of
// `ship`, and certificates of `tasks` and `taskcert`.
const MOST_OBJECTS: usize = 65_532;

const MOST_SOURCES: usize = 65_530;

const MOST_CERTS: usize = 65_531;

// The most functions of a generated image.
const MOST_FUNCTIONS: u32 = 500;

// The last address of a boot sequence, which has 224 bytes.
const LAST_BOOT_ADDRESS: u32 = 0xffff_ff20;

/// A command with the names of its files.
#[derive(Clone, Copy)]
pub(crate) enum Command<'a> {
    Check {
        elf: &'a str,
        plan: &'a str,
        cert: &'a str,
    },
    Cert {
        elf: &'a str,
        plan: &'a str,
        cert: &'a str,
    },
    Cfg {
        elf: &'a str,
        plan: &'a str,
    },
    Report {
        elf: &'a str,
        plan: &'a str,
        cert: &'a str,
    },
    Run {
        elf: &'a str,
        plan: &'a str,
        script: &'a str,
    },
    Dis {
        elf: &'a str,
    },
    Asm {
        source: &'a str,
        object: &'a str,
    },
    Link {
        layout: &'a str,
        image: &'a str,
        objects: &'a [String],
    },
    Ship(Shipment<'a>),
    Boot {
        elf: &'a str,
        plan: &'a str,
        cert: &'a str,
        at: u32,
    },
    Bootgen {
        plan: &'a str,
        entry: u32,
        at: u32,
        source: &'a str,
    },
    Cells {
        elf: &'a str,
        plan: &'a str,
        cells: &'a str,
        cert: &'a str,
    },
    Cellcert {
        elf: &'a str,
        plan: &'a str,
        cells: &'a str,
        cert: &'a str,
    },
    Tasks {
        elf: &'a str,
        plan: &'a str,
        tasks: &'a str,
        certs: &'a [String],
    },
    Gen {
        functions: u32,
    },
    Taskcert {
        elf: &'a str,
        plan: &'a str,
        tasks: &'a str,
        certs: &'a [String],
    },
}

/// Returns the command that the program's arguments ask for, or `None` if they are no command.
pub(crate) fn parse_command(alloc: Global, words: &[String]) -> Option<Command<'_>>
    ensures is { option_map plain_command result ≡ command (map string_bytes words.now) }
    ensures limits { IfSome result CommandKeepsLimits }
{
    match link_command(words) {
        Some(command) => Some(command),
        None => match ship_command(words) {
            Some(command) => Some(command),
            None => match tasks_command(alloc, words) {
                Some(command) => Some(command),
                None => fixed_arity_command(words),
            },
        },
    }
}

// Returns the command `link` if the program's arguments ask for it: a layout, the image, and 1 to
// 65,532 objects.
fn link_command(words: &[String]) -> Option<Command<'_>>
    ensures is { option_map plain_command result ≡ link_command_of (map string_bytes words.now) }
    ensures limits { IfSome result CommandKeepsLimits }
{
    match words {
        [verb, layout, image, objects @ ..] if is_link(verb.as_str(), objects) => {
            Some(Command::Link {
                layout: layout.as_str(),
                image: image.as_str(),
                objects,
            })
        }
        _ => None,
    }
}

// Returns the command `ship` if the program's arguments ask for it: a plan, a layout, the image,
// its certificate, and 1 to 65,530 sources.
fn ship_command(words: &[String]) -> Option<Command<'_>>
    ensures is { option_map plain_command result ≡ ship_command_of (map string_bytes words.now) }
    ensures limits { IfSome result CommandKeepsLimits }
{
    match words {
        [verb, plan, layout, elf, cert, sources @ ..]
            if is_ship(verb.as_str(), elf.as_str(), cert.as_str(), sources) => Some(Command::Ship(
            Shipment {
                plan: plan.as_str(),
                layout: layout.as_str(),
                elf: elf.as_str(),
                cert: cert.as_str(),
                sources,
            },
        )),
        _ => None,
    }
}

// Returns the command `tasks` or `taskcert` if the program's arguments ask for one: an image, a
// plan, its tasks, and certificates.
fn tasks_command(alloc: Global, words: &[String]) -> Option<Command<'_>>
    ensures is { option_map plain_command result
        ≡ tasks_command_of (map string_bytes words.now) }
    ensures limits { IfSome result CommandKeepsLimits }
{
    match words {
        [verb, elf, plan, tasks, certs @ ..] if is_tasks(verb.as_str(), certs) => {
            Some(Command::Tasks {
                elf: elf.as_str(),
                plan: plan.as_str(),
                tasks: tasks.as_str(),
                certs,
            })
        }
        [verb, elf, plan, tasks, certs @ ..] if is_taskcert(alloc, verb.as_str(), certs) => {
            Some(Command::Taskcert {
                elf: elf.as_str(),
                plan: plan.as_str(),
                tasks: tasks.as_str(),
                certs,
            })
        }
        _ => None,
    }
}

// Returns the command with one to four arguments after its verb that the program's arguments ask
// for, or `None`.
fn fixed_arity_command(words: &[String]) -> Option<Command<'_>>
    ensures is { option_map plain_command result
        ≡ fixed_arity_command_of (map string_bytes words.now) }
    ensures limits { IfSome result CommandKeepsLimits }
{
    match words {
        [verb, first] => one_arg_command(verb.as_str(), first.as_str()),
        [verb, first, second] => two_arg_command(verb.as_str(), first.as_str(), second.as_str()),
        [verb, first, second, third] => {
            three_arg_command(
                verb.as_str(),
                first.as_str(),
                second.as_str(),
                third.as_str(),
            )
        }
        [verb, first, second, third, fourth] => four_arg_command(
            verb.as_str(),
            first.as_str(),
            second.as_str(),
            third.as_str(),
            fourth.as_str(),
        ),
        _ => None,
    }
}

// Returns true if the verb of the program's arguments is `link`, and they name 1 to 65,532 objects.
fn is_link(verb: &str, objects: &[String]) -> bool
    ensures { result ≡ is_link verb.now (map string_bytes objects.now) }
{
    verb == "link" && !objects.is_empty() && objects.len() <= MOST_OBJECTS
}

// Returns true if the arguments' verb is `ship`, the two files to write have different names, and 1
// to 65,530 sources are named.
fn is_ship(verb: &str, elf: &str, cert: &str, sources: &[String]) -> bool
    ensures { result ≡ is_ship verb.now elf.now cert.now (map string_bytes sources.now) }
{
    verb == "ship" && elf != cert && !sources.is_empty() && sources.len() <= MOST_SOURCES
}

// Returns true if the verb of the program's arguments is `tasks`, and they name 1 to 65,531
// certificates.
fn is_tasks(verb: &str, certs: &[String]) -> bool
    ensures { result ≡ is_tasks verb.now (map string_bytes certs.now) }
{
    verb == "tasks" && !certs.is_empty() && certs.len() <= MOST_CERTS
}

// Returns true if the verb of the program's arguments is `taskcert`, and they name 1 to 65,531
// certificates, all different.
fn is_taskcert(alloc: Global, verb: &str, certs: &[String]) -> bool
    ensures { result ≡ is_taskcert verb.now (map string_bytes certs.now) }
{
    verb == "taskcert"
        && !certs.is_empty()
        && certs.len() <= MOST_CERTS
        && are_distinct_names(alloc, certs)
}

// Returns the command that has one argument after its verb, `dis` or `gen`. `None` for other verbs
// and bad numbers of functions.
fn one_arg_command<'a>(verb: &str, word: &'a str) -> Option<Command<'a>>
    ensures is { option_map plain_command result ≡ one_arg_command verb.now word.now }
    ensures limits { IfSome result CommandKeepsLimits }
{
    if verb == "dis" {
        Some(Command::Dis { elf: word })
    } else if verb == "gen" {
        gen_command(word)
    } else {
        None
    }
}

// Returns the command that has two arguments after its verb, `asm` or `cfg`, or `None` for other
// verbs.
fn two_arg_command<'a>(verb: &str, first: &'a str, second: &'a str) -> Option<Command<'a>>
    ensures is { option_map plain_command result
        ≡ two_arg_command verb.now first.now second.now }
    ensures limits { IfSome result CommandKeepsLimits }
{
    if verb == "asm" {
        Some(Command::Asm {
            source: first,
            object: second,
        })
    } else if verb == "cfg" {
        Some(Command::Cfg {
            elf: first,
            plan: second,
        })
    } else {
        None
    }
}

// Returns the command that has three arguments after its verb, `check`, `cert`, `report` or `run`,
// or `None` for other verbs.
fn three_arg_command<'a>(
    verb: &str,
    elf: &'a str,
    plan: &'a str,
    third: &'a str,
) -> Option<Command<'a>>
    ensures is { option_map plain_command result
        ≡ three_arg_command verb.now elf.now plan.now third.now }
    ensures limits { IfSome result CommandKeepsLimits }
{
    if verb == "check" {
        Some(Command::Check {
            elf,
            plan,
            cert: third,
        })
    } else if verb == "cert" {
        Some(Command::Cert {
            elf,
            plan,
            cert: third,
        })
    } else if verb == "report" {
        Some(Command::Report {
            elf,
            plan,
            cert: third,
        })
    } else if verb == "run" {
        Some(Command::Run {
            elf,
            plan,
            script: third,
        })
    } else {
        None
    }
}

// Returns the command that has four arguments after its verb, `cells`, `cellcert`, `boot` or
// `bootgen`. `None` for other verbs and bad addresses.
fn four_arg_command<'a>(
    verb: &str,
    first: &'a str,
    second: &'a str,
    third: &'a str,
    fourth: &'a str,
) -> Option<Command<'a>>
    ensures is { option_map plain_command result ≡
        four_arg_command verb.now first.now second.now third.now fourth.now }
    ensures limits { IfSome result CommandKeepsLimits }
{
    if verb == "cells" {
        Some(Command::Cells {
            elf: first,
            plan: second,
            cells: third,
            cert: fourth,
        })
    } else if verb == "cellcert" {
        Some(Command::Cellcert {
            elf: first,
            plan: second,
            cells: third,
            cert: fourth,
        })
    } else if verb == "boot" {
        boot_command(first, second, third, fourth)
    } else if verb == "bootgen" {
        bootgen_command(first, second, third, fourth)
    } else {
        None
    }
}

// Returns the command `gen`, or `None` if its argument isn't a number of functions from 1 to 500.
fn gen_command<'a>(word: &str) -> Option<Command<'a>>
    ensures is { option_map plain_command result
        ≡ option_map generate (gen_function_count word.now) }
    ensures limits { IfSome result CommandKeepsLimits }
{
    let functions = gen_count_in_range(script_number(word.as_bytes())?)?;
    Some(Command::Gen { functions })
}

// Returns `n`, the number of functions that `gen` is asked for, or `None` if `n` isn't 1 to 500.
fn gen_count_in_range(n: u32) -> Option<u32>
    ensures is { result ≡ then_some (nat_le 1 n && nat_le n 500) n }
    ensures limits { IfSome result (λ n. (1 ≤ n) × (n ≤ 500)) }
{
    if 1 <= n && n <= MOST_FUNCTIONS {
        Some(n)
    } else {
        None
    }
}

// Returns the command `boot` for a boot sequence at `at`, with these file names. `None` if `at`
// isn't eight upper-case hex digits.
fn boot_command<'a>(elf: &'a str, plan: &'a str, cert: &'a str, at: &str) -> Option<Command<'a>>
    ensures is { option_map plain_command result
        ≡ boot_command_of elf.now plan.now cert.now at.now }
    ensures limits { IfSome result CommandKeepsLimits }
{
    let at = hex_number(at.as_bytes())?;
    Some(Command::Boot {
        elf,
        plan,
        cert,
        at,
    })
}

// Returns the command `bootgen` for a boot sequence at `at` that jumps to `entry`. `None` for a bad
// number, or a sequence that passes 2^32.
fn bootgen_command<'a>(plan: &'a str, entry: &str, at: &str, source: &'a str) -> Option<Command<'a>>
    ensures is { option_map plain_command result
        ≡ bootgen_command_of plan.now entry.now at.now source.now }
    ensures limits { IfSome result CommandKeepsLimits }
{
    let entry = hex_number(entry.as_bytes())?;
    let at = hex_number(at.as_bytes())?;
    if at <= LAST_BOOT_ADDRESS {
        Some(Command::Bootgen {
            plan,
            entry,
            at,
            source,
        })
    } else {
        None
    }
}

impl<'a> Command<'a> {
    /// Runs a command: reads its inputs, and returns a report with what to print and to write, or
    /// why there is none. No command is inlined here, so that the stack has the locals of one
    /// command only.
    pub(crate) fn outcome<F: Files>(self, alloc: Global, files: &mut F) -> Outcome
        requires { CommandKeepsLimits self }
        ensures { IsCommandOutcome (reading_of (plain_command self.entry)) (F.seen files.old)
            (F.seen files.new)
            result }
    {
        match self {
            Command::Check { elf, plan, cert } => check_files(alloc, elf, plan, cert, files),
            Command::Cert { elf, plan, cert } => certify_executable(alloc, elf, plan, cert, files),
            Command::Cfg { elf, plan } => draw_cfg(alloc, elf, plan, files),
            Command::Report { elf, plan, cert } => report_on_cert(alloc, elf, plan, cert, files),
            Command::Run { elf, plan, script } => run_script_file(alloc, elf, plan, script, files),
            Command::Dis { elf } => disassemble_file(alloc, elf, files),
            Command::Asm { source, object } => assemble_file(alloc, source, object, files),
            Command::Link {
                layout,
                image,
                objects,
            } => link_files(alloc, layout, image, objects, files),
            Command::Ship(names) => ship_files(alloc, &names, files),
            Command::Boot {
                elf,
                plan,
                cert,
                at,
            } => check_boot_files(alloc, elf, plan, cert, at, files),
            Command::Bootgen {
                plan,
                entry,
                at,
                source,
            } => generate_boot_source(alloc, plan, entry, at, source, files),
            Command::Cells {
                elf,
                plan,
                cells,
                cert,
            } => check_cells(alloc, elf, plan, cells, cert, files),
            Command::Cellcert {
                elf,
                plan,
                cells,
                cert,
            } => certify_cells(alloc, elf, plan, cells, cert, files),
            Command::Tasks {
                elf,
                plan,
                tasks,
                certs,
            } => check_tasks(alloc, elf, plan, tasks, certs, files),
            Command::Gen { functions } => certify_generated_image(alloc, functions),
            Command::Taskcert {
                elf,
                plan,
                tasks,
                certs,
            } => certify_tasks(alloc, elf, plan, tasks, certs, files),
        }
    }
}
