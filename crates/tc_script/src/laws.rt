// Laws of scripts.
ghost use Rattle.tc_script.specs.ScriptRuns.{ScriptHasOneRun};

/// Runs by a script are deterministic: from one machine state, a script gives one list of events.
pub fn script_has_one_run()
    ensures { ScriptHasOneRun }
{}
