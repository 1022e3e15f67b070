// The calls of a script.
ghost use Rattle.std.specs.Prelude.{◌≡◌, Some};
ghost use Rattle.commands.specs.declared.command.Unread.TheVariants.{NoSuchCall, NoSuchKind, NoSuchRule, NotANumber};
ghost use Rattle.commands.specs.Commands.{Asks, AsksCall, AsksCell, AsksNamed, Counts, Names, asked_by, name_of_call, kind_name, rule_name, unread_text};

use spelling::words;
use spelling::words::Parting;
use std::error::Error;
use std::fmt;
use std::num::ParseIntError;
use std::str::FromStr;

// A call that a script can name.
#[derive(Clone, Copy)]
pub enum CallName {
    Cell,
    Admit,
    Lay,
    Step,
    Take,
    Clear,
}

// A kind of level that a script can name.
#[derive(Clone, Copy)]
pub enum KindName {
    Grey,
    Height,
    Mask,
    Labels,
    GreyLabels,
}

// A selecting rule that a script can name.
#[derive(Clone, Copy)]
pub enum RuleName {
    Variance,
    Range,
}

// What a `cell` line asks for.
#[derive(Clone, Copy)]
pub struct Making {
    pub kind: KindName,
    pub rule: RuleName,
    pub width: usize,
    pub height: usize,
    pub levels: usize,
}

// A call to a cell. Recipe and frame are still text, which the cell's kind of level reads.
#[derive(Clone, Copy)]
pub enum Call<'a> {
    Admit(&'a str),
    Lay(&'a str),
    Step(usize),
    Take(usize),
    Clear,
}

// What a line of a script asks for.
#[derive(Clone, Copy)]
pub enum Command<'a> {
    Nothing,
    Note(&'a str),
    Cell(Making),
    Put(Call<'a>),
}

// Why a line cannot be read.
#[derive(Clone, Copy, Debug, PartialEq, Eq)]
pub enum Unread {
    NoSuchCall,
    NoSuchKind,
    NoSuchRule,
    NotANumber,
    WordTooMany,
}

// A call by its name.
impl FromStr for CallName {
    type Err = Unread;

    ghost from_str_gives = { Names name_of_call NoSuchCall };

    fn from_str(word: &str) -> Result<CallName, Unread> {
        match word {
            "cell" => Ok(CallName::Cell),
            "admit" => Ok(CallName::Admit),
            "lay" => Ok(CallName::Lay),
            "step" => Ok(CallName::Step),
            "take" => Ok(CallName::Take),
            "clear" => Ok(CallName::Clear),
            _ => Err(Unread::NoSuchCall),
        }
    }
}

// A kind of level by its name.
impl FromStr for KindName {
    type Err = Unread;

    ghost from_str_gives = { Names kind_name NoSuchKind };

    fn from_str(word: &str) -> Result<KindName, Unread> {
        match word {
            "grey" => Ok(KindName::Grey),
            "height" => Ok(KindName::Height),
            "mask" => Ok(KindName::Mask),
            "labels" => Ok(KindName::Labels),
            "grey/labels" => Ok(KindName::GreyLabels),
            _ => Err(Unread::NoSuchKind),
        }
    }
}

// A selecting rule by its name.
impl FromStr for RuleName {
    type Err = Unread;

    ghost from_str_gives = { Names rule_name NoSuchRule };

    fn from_str(word: &str) -> Result<RuleName, Unread> {
        match word {
            "variance" => Ok(RuleName::Variance),
            "range" => Ok(RuleName::Range),
            _ => Err(Unread::NoSuchRule),
        }
    }
}

impl From<ParseIntError> for Unread {
    ghost from_gives = { λ _ fault. fault ≡ NotANumber };

    fn from(_: ParseIntError) -> Unread {
        Unread::NotANumber
    }
}

// A number in decimal.
pub fn number(word: &str) -> Result<usize, Unread>
    ensures { Counts word.now result }
{
    Ok(word.parse::<usize>()?)
}

// What a `cell` line asks for after its first word.
fn cell_asked<P: Parting>(text: &str) -> Result<Making, Unread>
    ensures { AsksCell P.cut text.now result }
{
    let (kind, text) = P::parted(text);
    let (rule, text) = P::parted(text);
    let (width, text) = P::parted(text);
    let (height, levels) = P::parted(text);
    Ok(Making {
        kind: kind.parse()?,
        rule: rule.parse()?,
        width: number(width)?,
        height: number(height)?,
        levels: number(levels)?,
    })
}

// What a name asks for with the text after it.
fn called<P: Parting>(name: CallName, text: &str) -> Result<Command<'_>, Unread>
    ensures { AsksCall P.cut name text.now (asked_by result) }
{
    match name {
        CallName::Cell => Ok(Command::Cell(cell_asked::<P>(text)?)),
        CallName::Admit => Ok(Command::Put(Call::Admit(text))),
        CallName::Lay => Ok(Command::Put(Call::Lay(text))),
        CallName::Step => Ok(Command::Put(Call::Step(number(text)?))),
        CallName::Take => Ok(Command::Put(Call::Take(number(text)?))),
        CallName::Clear => {
            if text.is_empty() {
                Ok(Command::Put(Call::Clear))
            } else {
                Err(Unread::WordTooMany)
            }
        }
    }
}

// What a text asks for by its first word.
fn named<P: Parting>(text: &str) -> Result<Command<'_>, Unread>
    ensures { AsksNamed P.cut text.now (asked_by result) }
{
    let (word, rest) = P::parted(text);
    called::<P>(word.parse()?, rest)
}

// What a line asks for, whose words part this way.
pub fn read<P: Parting>(line: &str) -> Result<Command<'_>, Unread>
    ensures { Asks P.cut line.now (asked_by result) }
{
    let line = words::trimmed(line);
    if line.is_empty() {
        return Ok(Command::Nothing);
    }
    if line.starts_with('#') {
        return Ok(Command::Note(line));
    }
    named::<P>(line)
}

impl Unread {
    // The message.
    fn text(self) -> &'static str
        ensures { result.now ≡ unread_text self }
    {
        match self {
            Unread::NoSuchCall => "no such call",
            Unread::NoSuchKind => "no such kind of level",
            Unread::NoSuchRule => "no such rule",
            Unread::NotANumber => "no number that can be served",
            Unread::WordTooMany => "a word too many",
        }
    }
}

impl fmt::Display for Unread {
    ghost output = { λ x. Some (unread_text x) };

    fn fmt<W: fmt::Write>(&self, f: &mut fmt::Formatter<W>) -> fmt::Result {
        let text = self.text();
        write!(f, "{text}")
    }
}

impl Error for Unread {}
