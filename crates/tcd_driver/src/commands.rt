// The commands: each reads its inputs, and returns its outcome.
pub(crate) mod asm;
pub(crate) mod boot;
pub(crate) mod bootgen;
pub(crate) mod cellcert;
pub(crate) mod cells;
pub(crate) mod cert;
pub(crate) mod cfg;
pub(crate) mod check;
pub(crate) mod dis;
pub(crate) mod generating;
pub(crate) mod link;
pub(crate) mod report;
pub(crate) mod run;
pub(crate) mod ship;
pub(crate) mod taskcert;
pub(crate) mod tasks;
