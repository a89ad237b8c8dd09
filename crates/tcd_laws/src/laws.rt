// Laws of what the libraries below give together.
ghost use Rattle.tcd_laws.specs.Claims.Booting.{BootClaimsHold, BootRefusalsHold};
ghost use Rattle.tcd_laws.specs.Claims.Building.{AsmClaimsHold, LinkClaimsHold, BootgenClaimsHold, BuildsRefuseNothing};
ghost use Rattle.tcd_laws.specs.Claims.CellsAndTasks.{CellsClaimsHold, CellsRefusalsHold, CellcertClaimsHold, CellcertRefusalsHold, TasksClaimsHold, TasksRefusalsHold, TaskcertClaimsHold, TaskcertRefusalsHold};
ghost use Rattle.tcd_laws.specs.Claims.Endings.{CommandEndsHold, BadWordsAreSaid};
ghost use Rattle.tcd_laws.specs.Claims.Checking.{CheckClaimsHold, CheckRefusalsHold, ReportClaimsHold, ReportRefusalsHold};
ghost use Rattle.tcd_laws.specs.Claims.Making.{CertClaimsHold, CertRefusalsHold, ShipClaimsHold, ShipRefusalsHold, CfgClaimsHold, CfgRefusalsHold, GenClaimsHold, GenRefusalsHold};
ghost use Rattle.tcd_laws.specs.Claims.Running.{RunClaimsHold, DisClaimsHold, PeaksAreNeeded};
ghost use Rattle.tcd_laws.specs.BuildSequences.{BuildsEndWithoutFault, BuildCommandsReportSurely};
ghost use Rattle.tcd_laws.specs.CallDepth.{ReportsBoundNestedCalls};
ghost use Rattle.tcd_laws.specs.EdgesOnLines.{PrintedGraphsHaveAllEdges};
ghost use Rattle.tcd_laws.specs.HandedFiles.{AssembledObjectsReadBack, LinkedImagesReadBack};
ghost use Rattle.tcd_laws.specs.LimitsKept.{LinksGiveImages, ObjectFilesHoldBytes, SourcesGiveObjects, TextsGiveLayouts};
ghost use Rattle.tcd_laws.specs.Sequences.{SureSequencesEndWithoutFault};

/// The printed graph of an accepted certificate has the edge of each step of each run from a start
/// state. The line has the step's frame, address and edge.
pub fn edge_law()
    ensures { PrintedGraphsHaveAllEdges }
{}

/// Commands in sequence, whose inputs are present and which can only report Done, end Done or out
/// of memory, without a fault. Files mustn't fail, and the output needs room.
pub fn sequence_law()
    ensures { SureSequencesEndWithoutFault }
{}

/// Assembled objects, layouts that were read, and linked images keep the limits of their types.
/// Sections and files of such objects hold numbers below 256.
pub fn kept_limit_laws()
    ensures objects { SourcesGiveObjects }
    ensures files { ObjectFilesHoldBytes }
    ensures layouts { TextsGiveLayouts }
    ensures images { LinksGiveImages }
{}

/// What `asm` writes, `link` reads as exactly the same object. What `link` writes is read as
/// exactly the same image. Both hold up to 16,777,216 bytes, the most that a command reads.
pub fn read_back_laws()
    ensures assembled { AssembledObjectsReadBack }
    ensures linked { LinkedImagesReadBack }
{}

/// A build is `asm` of each source, `link` of their objects, and `dis` of the image. If its inputs
/// are present and good, and no file or output fails, a build ends Done or out of memory.
pub fn build_laws()
    ensures reports { BuildCommandsReportSurely }
    ensures ends { BuildsEndWithoutFault }
{}

/// What the tool claims if one of these commands ends with status 0, in plain equations; and that
/// claims C1 to C4 hold with no number below the peak of a run.
pub fn claim_laws()
    ensures check { CheckClaimsHold }
    ensures cert { CertClaimsHold }
    ensures ship { ShipClaimsHold }
    ensures report { ReportClaimsHold }
    ensures cfg { CfgClaimsHold }
    ensures generate { GenClaimsHold }
    ensures dis { DisClaimsHold }
    ensures run { RunClaimsHold }
    ensures peaks { PeaksAreNeeded }
{}

/// What the tool says if one of these commands ends with status 1, in plain equations.
pub fn refusal_laws()
    ensures check { CheckRefusalsHold }
    ensures cert { CertRefusalsHold }
    ensures ship { ShipRefusalsHold }
    ensures report { ReportRefusalsHold }
    ensures cfg { CfgRefusalsHold }
    ensures generate { GenRefusalsHold }
{}

/// What `asm`, `link` and `bootgen` claim if they end with status 0, in plain equations. They never
/// end with status 1.
pub fn build_claim_laws()
    ensures asm { AsmClaimsHold }
    ensures link { LinkClaimsHold }
    ensures bootgen { BootgenClaimsHold }
    ensures refuse { BuildsRefuseNothing }
{}

/// Claims C5 to C7 of these commands if they end with status 0, with what they write and print; and
/// what they say if they end with status 1. All in plain equations.
pub fn analysis_claim_laws()
    ensures boot { BootClaimsHold }
    ensures boot_refuses { BootRefusalsHold }
    ensures cells { CellsClaimsHold }
    ensures cells_refuses { CellsRefusalsHold }
    ensures cellcert { CellcertClaimsHold }
    ensures cellcert_refuses { CellcertRefusalsHold }
    ensures tasks { TasksClaimsHold }
    ensures tasks_refuses { TasksRefusalsHold }
    ensures taskcert { TaskcertClaimsHold }
    ensures taskcert_refuses { TaskcertRefusalsHold }
{}

/// What each command says of bad input, and with which status it ends if nothing can fail; and what
/// is said of arguments that are no command.
pub fn ending_claim_laws()
    ensures commands { CommandEndsHold }
    ensures bad_words { BadWordsAreSaid }
{}

/// In each state of each run the calls that are nested since the last entry by an interrupt or a
/// trap are at most the `longest` of the report for the priority that runs.
pub fn call_depth_law()
    ensures { ReportsBoundNestedCalls }
{}
