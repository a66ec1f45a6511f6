// Laws of histories, each held by the contract of a function.
ghost use Rattle.histories.specs.Laws.{BeginningIsStarted, CompleteIsBalanced, CompleteIsStarted, StartedIsOpenedFirst};

// A complete history is a started one.
pub fn complete_is_started()
    ensures { CompleteIsStarted }
{}

// What begins a started history is a started history.
pub fn beginning_is_started()
    ensures { BeginningIsStarted }
{}

// A complete history closes what it opens.
pub fn complete_is_balanced()
    ensures { CompleteIsBalanced }
{}

// A started history closes nothing that it did not open.
pub fn started_is_opened_first()
    ensures { StartedIsOpenedFirst }
{}
