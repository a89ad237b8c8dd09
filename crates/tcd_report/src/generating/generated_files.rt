// The files of a generated image and of its plan.
ghost use Rattle.std.specs.Prelude.{◌≡◌, ◌≤◌, ◌^◌, IfOk, Ok, length};
ghost use Rattle.elf_image.specs.ReadElf.{image_of_file};
ghost use Rattle.elf_image.specs.WrittenElf.{elf_file};
ghost use Rattle.tcd_plan.specs.PlanReader.{GivesPlan};
ghost use Rattle.tcd_report.specs.Generated.{generated_image};
ghost use Rattle.tcd_report.specs.Generated.Planned.{generated_plan, generated_plan_text};

use crate::generating::functions::{generated_functions, generated_main_code};
use crate::generating::program_segments::{generated_function_table, generated_vectors};
use elf_image::{Image, Segment, establish_segment_bytes};
use std::alloc::Global;
use tcd_base::NoMemory;

/// The files of a generated image and of its plan.
#[derive(Drop)]
pub struct Generated {
    /// The file of the image.
    pub elf: Vec<u8>,
    /// The file of the plan.
    pub plan: Vec<u8>,
}

/// Makes the files of the generated image of n functions and of its plan. The image has a main
/// program, the handlers of sixteen nested interrupts, and the functions. The main program makes
/// system calls, and calls functions of a table by the numbers that a peripheral gives. Function i
/// calls the functions 2i + 1 and 2i + 2. The time is linear in n.
pub fn generate(alloc: Global, n: u32) -> Result<Generated, NoMemory>
    requires some { 1 ≤ n }
    requires few { n ≤ 500 }
    ensures elf { IfOk result (λ g. g.elf.items ≡ elf_file (generated_image n)) }
    ensures small { IfOk result (λ g. length g.elf.items ≤ 2 ^ 30) }

    // Reading the file gives the image.
    ensures image { IfOk result (λ g. image_of_file g.elf.items ≡ Ok (generated_image n)) }
    ensures text { IfOk result (λ g. g.plan.items ≡ generated_plan_text) }

    // Reading the text gives the plan.
    ensures plan { IfOk result (λ g. GivesPlan g.plan.items (Ok generated_plan)) }
{
    let image = generated_image(alloc, n)?;
    let Ok(elf) = image.write(alloc) else {
        return Err(NoMemory);
    };
    let plan = Vec::from_slice(alloc, generated_plan_text().as_bytes())?;
    Ok(Generated { elf, plan })
}

/// Returns the image of n functions that is generated with its plan: five segments, from the main
/// program to the functions.
#[tactic(auto, using(crate::proofs::ImageLemmas::Instructions::system_bytes))]
pub fn generated_image(alloc: Global, n: u32) -> Result<Image, NoMemory>
    requires some { 1 ≤ n }
    requires few { n ≤ 500 }
    ensures { IfOk result (λ i. i ≡ generated_image n) }
{
    let main = Vec::from_slice(alloc, &generated_main_code())?;
    let system = Vec::from_slice(alloc, &[0x00, 0x80])?; // rfe16
    let table = generated_function_table(alloc, n)?;
    let vectors = generated_vectors(alloc, n)?;
    let functions = generated_functions(alloc, n)?;
    let segments = Vec::from_array(
        alloc,
        [
            Segment {
                at: 0x8000_0000,
                bytes: main,
            },
            Segment {
                at: 0x8000_0100,
                bytes: table,
            },
            Segment {
                at: 0x8000_2140,
                bytes: vectors,
            },
            Segment {
                at: 0x8000_40c0,
                bytes: system,
            },
            Segment {
                at: 0x8000_8000,
                bytes: functions,
            },
        ],
    )?;
    establish_segment_bytes(&segments);
    Ok(Image {
        entry: 0x8000_0000,
        segments,
    })
}

/// Returns the JSON text of the plan of generated images, the same for each image.
pub fn generated_plan_text() -> &'static str
    ensures { result.now ≡ generated_plan_text }
{
    r#"{"rom":[{"at":"0x80000000","len":"0x20000"}],"ram":[{"at":"0xD0010000","len":"0x8000"}],"devices":[{"at":"0xF0000000","len":"0x100","lo":0,"hi":15}],"csa":{"at":"0xD0000000","areas":256,"reserve":16},"sp":"0xD0018000","isp":"0xD0014000","biv":"0x80002000","btv":"0x80004000","irqs":[10,20,30,40,50,60,70,80,90,100,110,120,130,140,150,160],"traps":["sys"],"start":{"ie":1,"ccpn":0,"is":0},"globals":{"a0":0,"a1":0,"a8":0,"a9":0}}"#
}
