//! What else is known of files. Each function is a theorem: its contract is the law, its body is empty.

ghost use Rattle.net_text.specs.Laws.{EachFileSaysOneThing, NoFaultIsWantOfMemory};

/// A file says one thing: one network, or one first fault, and not both.
pub fn each_file_says_one_thing()
    ensures { EachFileSaysOneThing }
{}

/// No first fault of a file has the kind `NoMemory`: so the reader's answer says whether an allocation was refused.
pub fn no_fault_is_want_of_memory()
    ensures { NoFaultIsWantOfMemory }
{}
