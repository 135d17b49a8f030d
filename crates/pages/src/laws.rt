// A theorem is asked for where a contract names it, so each stands on a
// function; the functions themselves do nothing.
ghost use Rattle.pages.specs.Laws.{ASheetRenumbers, ASheetIsABook, ASheetIsTold, LiteralsAreTrue, AReportIsTold};

// A sheet is a book of its own, in another order, and its bytes tell it.
pub fn sheets_are_books()
    ensures renumbers { ASheetRenumbers }
    ensures book { ASheetIsABook }
    ensures told { ASheetIsTold }
{}

// What is reported of an assignment is true under it, and the bytes tell it.
pub fn reports_are_true()
    ensures literals { LiteralsAreTrue }
    ensures told { AReportIsTold }
{}
