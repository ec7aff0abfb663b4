//! What holds of every script that is written, stated over the definitions that `write_script` meets.

ghost use Rattle.av_generate.specs.Draws.{DrawsAreSplitmix};
ghost use Rattle.av_generate.specs.Language.{EachCommandIsOfTheLanguage, EachSettingIsOfTheLanguage};

/// The numbers of a seed, one behind the other, are SplitMix64's.
pub fn draws_are_splitmix()
    ensures { DrawsAreSplitmix }
{}

/// Whatever was drawn and happened so far, the words of the next command are a command of the language.
pub fn commands_are_of_the_language()
    ensures { EachCommandIsOfTheLanguage }
{}

/// A limit line and a volume line say what was drawn for them.
pub fn settings_are_of_the_language()
    ensures { EachSettingIsOfTheLanguage }
{}
