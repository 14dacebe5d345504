// Laws of the file of a catalogue. Each function is the claim that its law is proved.
ghost use Rattle.rules.specs.LawsFile.{LoadedProper, LoadedSaves, RunsSave, SavedLoads, SavedReads};

// The clips of a saved file are those that were saved, in rising number.
pub fn saved_reads_stands()
    ensures { SavedReads }
{}

// A saved file is not refused by an empty catalogue of the same plan that has room for it.
pub fn saved_loads_stands()
    ensures { SavedLoads }
{}

// A file that is not refused is the very one that is saved of its clips.
pub fn loaded_saves_stands()
    ensures { LoadedSaves }
{}

// The clips of a file that is not refused are clips of the plan, each number stands once, they are within the capacity, and the catalogue was empty.
pub fn loaded_proper_stands()
    ensures { LoadedProper }
{}

// What a catalogue that some calls made saves, loads into an empty one of its plan and capacity, with the same rows.
pub fn runs_save_stands()
    ensures { RunsSave }
{}
