// Laws of the definitions that the contracts cite. Each function is the claim that its law is proved.
ghost use Rattle.file.specs.LawsFile.{FileFaultsRefuse, RowsRead, WrittenSaves};

// The faults of files are the refusals of loads, and a file without fault has as many rows as it announces.
pub fn file_faults_refuse_stands()
    ensures { FileFaultsRefuse }
{}

// Each row of a file without fault is read.
pub fn rows_read_stands()
    ensures { RowsRead }
{}

// What is written of rows in rising number is what is saved, and it has the length that such a file has.
pub fn written_saves_stands()
    ensures { WrittenSaves }
{}
