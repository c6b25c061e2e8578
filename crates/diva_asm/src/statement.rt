// The labels and the statement of a line.
ghost use Rattle.std.specs.Prelude.{◌≡◌, ◌<◌, ◌∷◌, length, List, [], Some, MatchOption, IfSome, IfOk};
ghost use Rattle.std.specs.Option.{option_map};
ghost use Rattle.diva_asm.specs.Texts.{labels_of, onto_names, operand_texts};
ghost use Rattle.diva_asm.specs.Statements.{is_memory, has_shape, have_shapes, no_operands, with_operand, with_operands, statement_with, statement_of};
ghost use Rattle.diva_asm.specs.Inner.{GivesOperands};
ghost use Rattle.diva_asm.specs.Reads.{IsRead};

use crate::fault::Kind;
use crate::mnemonic::Mnemonic;
use crate::operand::Operand;
use crate::operands::{Operands, Place, number_in, read_place, register};
use crate::texts::{count_of, cut, is_name, mnemonic_len, split, trim};

/// A statement: its mnemonic, and what its operands say.
#[derive(Drop)]
pub(crate) struct Statement<'a> {
    pub mnemonic: Mnemonic,
    pub operands: Operands<'a>,
}

/// The first label of a text, and what follows its colon; `None` where it begins with no label.
#[tactic(auto, using(crate::proofs::Colons::no_label, crate::proofs::Colons::one_label, crate::proofs::Colons::no_name))]
pub(crate) fn first_label(text: &[u8]) -> Option<(&[u8], &[u8])>
    ensures label { MatchOption result (labels_of text.now ≡ record { names = []; rest = text.now }) (λ l. labels_of text.now ≡ onto_names l.0.now (labels_of l.1.now)) }
    ensures shorter { IfSome result (λ l. length l.1.now < length text.now) }
{
    let (front, rest) = split(text, b':')?;
    let name = trim(front);
    if is_name(name) {
        Some((name, rest))
    } else {
        None
    }
}

/// The statement of a text, or none where it is empty.
#[tactic(auto, unfolding(crate::specs::Statements::statement_of))]
pub(crate) fn read_statement(rest: &[u8]) -> Result<Option<Statement<'_>>, Kind>
    ensures value { result ≡ statement_of rest.now }
    ensures read { IfOk result (λ found. IfSome found (λ s. IsRead s.mnemonic s.operands)) }
{
    let text = trim(rest);
    if text.is_empty() {
        return Ok(None);
    }
    if text.starts_with(b":") {
        return Err(Kind::WrongShape);
    }
    let len = mnemonic_len(text);
    let mnemonic = Mnemonic::of(&text[..len]).ok_or(Kind::UnknownMnemonic)?;
    Ok(Some(statement_with(mnemonic, trim(&text[len..]))?))
}

/// The statement of a mnemonic and the text behind it.
#[tactic(auto, unfolding(crate::specs::Statements::statement_with))]
fn statement_with(mnemonic: Mnemonic, text: &[u8]) -> Result<Statement<'_>, Kind>
    ensures value { result ≡ statement_with mnemonic text.now }
    ensures read { IfOk result (λ s. IsRead s.mnemonic s.operands) }
{
    let texts = if text.is_empty() { None } else { Some(text) };
    let operands = mnemonic.operands();
    match with_operands(operands, texts) {
        Ok(operands) => Ok(Statement { mnemonic, operands }),
        Err(kind) if have_shapes(operands, texts) => Err(kind),
        // a wrong shape comes before what else is wrong with an operand
        Err(_) => Err(Kind::WrongShape),
    }
}

/// The first text of some that commas separate, and the others.
#[tactic(auto, using(crate::proofs::Commas::last_text, crate::proofs::Commas::first_of_texts))]
fn first_text(texts: &[u8]) -> (&[u8], Option<&[u8]>)
    ensures { operand_texts (Some texts.now) ≡ result.0.now ∷ operand_texts (option_map (λ t. t.now) result.1) }
{
    match split(texts, b',') {
        Some((text, others)) => (trim(text), Some(others)),
        None => (trim(texts), None),
    }
}

/// Whether there are as many texts as operands, each of its operand's shape.
#[tactic(auto, unfolding(crate::specs::Statements::have_shapes))]
fn have_shapes(operands: &[Operand], mut texts: Option<&[u8]>) -> bool
    ensures { result ≡ have_shapes operands.now (operand_texts (option_map (λ t. t.now) texts.entry)) }
{
    for operand in operands {
        match texts {
            Some(left) => {
                let (text, others) = first_text(left);
                if !has_shape(*operand, text) {
                    return false;
                }
                texts = others;
            }
            None => return false,
        }
    }
    match texts {
        Some(_) => false,
        None => true,
    }
}

fn has_shape(operand: Operand, text: &[u8]) -> bool
    ensures { result ≡ has_shape operand text.now }
{
    match operand {
        Operand::Memory => is_memory(text),
        _ => !text.is_empty(),
    }
}

/// `number(register)`
#[tactic(auto, unfolding(crate::specs::Statements::is_memory))]
fn is_memory(text: &[u8]) -> bool
    ensures { result ≡ is_memory text.now }
{
    text.ends_with(b")") && count_of(text, b'(') == 1 && count_of(text, b')') == 1
}

/// What the texts say, or a fault, where there are not as many as operands, each of its operand's shape, or one says nothing.
#[tactic(auto, unfolding(crate::specs::Statements::with_operands, crate::specs::Statements::have_shapes))]
fn with_operands<'a>(
    operands: &[Operand],
    mut texts: Option<&'a [u8]>,
) -> Result<Operands<'a>, Kind>
    ensures { let all = operand_texts (option_map (λ t. t.now) texts.entry) in GivesOperands (have_shapes operands.now all) (with_operands operands.now all no_operands) result }
{
    let mut values = Operands {
        rd: 0,
        rs1: 0,
        rs2: 0,
        number: 0,
        place: Place::new(None, 0),
    };
    for operand in operands {
        match texts {
            Some(left) => {
                let (text, others) = first_text(left);
                if !has_shape(*operand, text) {
                    return Err(Kind::WrongShape);
                }
                values = with_operand(*operand, text, values)?;
                texts = others;
            }
            None => return Err(Kind::WrongShape),
        }
    }
    match texts {
        Some(_) => Err(Kind::WrongShape),
        None => Ok(values),
    }
}

#[tactic(auto, unfolding(crate::specs::Statements::with_operand))]
fn with_operand<'a>(
    operand: Operand,
    text: &'a [u8],
    values: Operands<'a>,
) -> Result<Operands<'a>, Kind>
    ensures { result ≡ with_operand operand text.now values.entry }
{
    match operand {
        Operand::Rd => Ok(Operands {
            rd: register(text)?,
            ..values
        }),
        Operand::Rs1 => Ok(Operands {
            rs1: register(text)?,
            ..values
        }),
        Operand::Rs2 => Ok(Operands {
            rs2: register(text)?,
            ..values
        }),
        Operand::Number { low, high } => Ok(Operands {
            number: number_in(low, high, text)?,
            ..values
        }),
        Operand::Upper => Ok(Operands {
            number: number_in(0, 0xf_ffff, text)?,
            ..values
        }),
        Operand::Target => Ok(Operands {
            place: read_place(text)?,
            ..values
        }),
        Operand::Memory => {
            let (number, after) = cut(text, b'(');
            let (name, _) = cut(after, b')');
            Ok(Operands {
                number: number_in(-2048, 2047, trim(number))?,
                rs1: register(trim(name))?,
                ..values
            })
        }
    }
}
