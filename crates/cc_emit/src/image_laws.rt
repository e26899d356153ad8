//! Laws of the composition: each is the contract of a function that does nothing.

ghost use Rattle.cc_emit.specs.Laws.{CodeIsShort, FunctionsFit, GlobalsFit, ImageIsPlaced, LambdaCanSelect, NamesHavePlaces, ProgramLoads, TextIsShort};
ghost use Rattle.cc_emit.specs.Sizes.{LinesAreShort};

/// Each name of the lines of a function has a place.
pub fn names_have_places()
    ensures { NamesHavePlaces }
{
    a_place::laws::places_are_below_count();
    a_place::share_laws::shared_places_are_counted();
}

/// Items can be selected for the lines of a well-formed lambda at their places in a form, where it has at
/// most 8 parameters and each of its calls at most 8 arguments.
pub fn lambda_can_select()
    ensures { LambdaCanSelect }
{
    names_have_places();
    s_sequence::laws::objects_are_there();
    s_sequence::laws::calls_keep_arguments();
    s_sequence::laws::widths_fit();
}

/// The items of a line have no more bytes than its template counts with far words.
pub fn lines_are_short()
    ensures { LinesAreShort }
{}

/// The code of a lambda has at most 32 bytes for each value and 256 more, where it has at most 8
/// parameters and each of its calls at most 8 arguments.
pub fn code_is_short()
    ensures { CodeIsShort }
{
    lines_are_short();
}

/// A global of a program can be laid out.
pub fn globals_fit()
    ensures { GlobalsFit }
{}

/// The functions of a program can be laid out with its globals, and each jump reaches.
pub fn functions_fit()
    ensures { FunctionsFit }
{}

/// The text of a program has less than 148,000,000 bytes.
pub fn text_is_short()
    ensures { TextIsShort }
{}

/// The sections of a program stand where a file wants them.
pub fn image_is_placed()
    ensures { ImageIsPlaced }
{
    functions_fit();
    rv_layout::laws::laid_is_placed();
}

/// The file of a program loads as its sections.
pub fn program_loads()
    ensures { ProgramLoads }
{
    image_is_placed();
    elf_file::laws::written_loads();
}
