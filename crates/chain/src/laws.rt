// What is proved of chains and of look-ups in them.
ghost use Rattle.chain.specs.Finds.{KeyInjective, ChainDistinct, SidesApart, ReducedSized};
ghost use Rattle.chain.specs.Tables.{OneRow};
ghost use Rattle.chain.specs.Looks.{LookUp, Most, Worked};
ghost use Rattle.chain.specs.Counts.{Counts};
ghost use Rattle.chain.specs.Masks.{SameLongest};

// Keys of a chain are all different, also between sides.
pub fn keys_apart()
    ensures injective { KeyInjective }
    ensures distinct { ChainDistinct }
    ensures sides { SidesApart }
    ensures sized { ReducedSized }
{}

// A value's block is a row of a table for one length alone.
pub fn one_row()
    ensures { OneRow }
{}

// Searches from the longest length down lead a header to its decision.
pub fn look_up_goes()
    ensures steps { LookUp }
    ensures most { Most }
    ensures worked { Worked }
{}

// How many rows a chain has.
pub fn rows_counted()
    ensures { Counts }
{}

// The longest length of a table is that of its mask.
pub fn masks_do()
    ensures { SameLongest }
{}
