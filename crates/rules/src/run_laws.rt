// Laws of runs of calls. Each function is the claim that its law is proved.
ghost use Rattle.rules.specs.LawsRun.{RunsKeep, RunsAnswer, RunsStep, RunsGoOn, EnterAtCapacity};

// After every run of calls: the build, the leaves' entries are the register's rows, each once and proper, no more than the capacity, and from two rows on at most half as many boxes.
pub fn runs_keep_stands()
    ensures { RunsKeep }
{}

// The answer read from the tree's rows is the register's.
pub fn runs_answer_stands()
    ensures { RunsAnswer }
{}

// One call more at the end of a run: the register, its answers and the tree.
pub fn runs_step_stands()
    ensures { RunsStep }
{}

// What holds after a run holds after one call more, which changes the tree by the rules unless it is refused.
pub fn runs_go_on_stands()
    ensures { RunsGoOn }
{}

// A proper clip that is not listed is refused, with 23, exactly where the rows are as many as the capacity.
pub fn enter_at_capacity_stands()
    ensures { EnterAtCapacity }
{}
