//! What each byte of a filter's text means.

ghost use Rattle.std.specs.Prelude.{◌≡◌, ◌+◌, ◌<◌, ◌≤◌, ◌^◌, length, slice_index};
ghost use Rattle.osgi_version.specs.VersionText.{is_white};
ghost use Rattle.ldap_filter.specs.FilterText.{is_attribute_byte};
ghost use Rattle.ldap_filter.specs.FilterSteps.{turn, sign_of, operator_of};
ghost use Rattle.ldap_filter.specs.FilterScan.{part_in, turn_in, IsScanAt, Keeps, outside_move, opened_move, attribute_move, operator_end_move, value_move};
ghost use Rattle.ldap_filter.specs.declared.scan.Stage.TheVariants.{Outside};

use crate::frame::Sign;

/// How an attribute's value is compared.
#[derive(Clone, Copy, Debug, PartialEq, Eq)]
pub(crate) enum Operator {
    Equal,
    Near,
    AtLeast,
    AtMost,
}

/// Where in a filter the text stands.
#[derive(Clone, Copy, Debug, PartialEq, Eq)]
pub(crate) enum Stage {
    /// Between filters.
    Outside,
    /// Behind `(`, with white space at most behind it.
    Opened,
    /// In an attribute. With a sign, that is all of it so far but white space.
    InAttribute(Option<Sign>),
    /// Behind the first byte of an operator of two.
    InOperator(Operator),
    InValue(Operator),
    /// Behind a backslash in a value.
    InEscape(Operator),
}

/// How far a text is read.
#[derive(Clone, Copy, Debug)]
pub(crate) struct Scan {
    pub stage: Stage,
    /// Where the last attribute begins and ends.
    pub start: usize,
    pub end: usize,
    /// Where the last value begins.
    pub value: usize,
}

/// What one more byte means.
#[derive(Clone, Copy, Debug)]
pub(crate) enum Move {
    /// No filter's text goes on so.
    Refuse,
    Go(Scan),
    /// A filter within the sign's begins.
    Enter(Sign),
    /// A filter begins.
    Open,
    /// The filter around ends.
    Close,
    /// An item ends.
    End(Operator),
}

fn is_white(byte: u8) -> bool
    ensures { result ≡ is_white byte }
{
    matches!(byte, b' ' | b'\t' | b'\n' | b'\x0c' | b'\r')
}

fn is_attribute_byte(byte: u8) -> bool
    ensures { result ≡ is_attribute_byte byte }
{
    !matches!(byte, b'(' | b')' | b'=' | b'~' | b'<' | b'>')
}

fn sign_of(byte: u8) -> Option<Sign>
    ensures { result ≡ sign_of byte }
{
    match byte {
        b'&' => Some(Sign::And),
        b'|' => Some(Sign::Or),
        b'!' => Some(Sign::Not),
        _ => None,
    }
}

/// The operator of two bytes that begins with this one.
fn operator_of(byte: u8) -> Option<Operator>
    ensures { result ≡ operator_of byte }
{
    match byte {
        b'~' => Some(Operator::Near),
        b'>' => Some(Operator::AtLeast),
        b'<' => Some(Operator::AtMost),
        _ => None,
    }
}

impl Scan {
    /// Nothing is read.
    pub(crate) fn new() -> Scan
        ensures { result ≡ record { stage = Outside; start = 0; end = 0; value = 0 } }
    {
        Scan {
            stage: Stage::Outside,
            start: 0,
            end: 0,
            value: 0,
        }
    }

    pub(crate) fn at_stage(self, stage: Stage) -> Scan
        ensures { result ≡ record self { stage = stage } }
    {
        Scan { stage, ..self }
    }

    fn outside(self, byte: u8) -> Move
        ensures { result ≡ outside_move self byte }
    {
        match byte {
            b'(' => Move::Open,
            b')' => Move::Close,
            _ if is_white(byte) => Move::Go(self),
            _ => Move::Refuse,
        }
    }

    fn opened(self, byte: u8, at: usize) -> Move
        requires { at + 1 < 2 ^ 64 }
        ensures { result ≡ opened_move self byte at }
    {
        if is_white(byte) {
            Move::Go(self)
        } else if is_attribute_byte(byte) {
            Move::Go(Scan {
                stage: Stage::InAttribute(sign_of(byte)),
                start: at,
                end: at + 1,
                ..self
            })
        } else {
            Move::Refuse
        }
    }

    fn in_attribute(self, group: Option<Sign>, byte: u8, at: usize) -> Move
        requires { at + 1 < 2 ^ 64 }
        ensures { result ≡ attribute_move self group byte at }
    {
        if is_white(byte) {
            return Move::Go(self);
        }
        if is_attribute_byte(byte) {
            return Move::Go(Scan {
                stage: Stage::InAttribute(None),
                end: at + 1,
                ..self
            });
        }
        match byte {
            b'=' => Move::Go(Scan {
                stage: Stage::InValue(Operator::Equal),
                value: at + 1,
                ..self
            }),
            b'(' => match group {
                Some(sign) => Move::Enter(sign),
                None => Move::Refuse,
            },
            _ => match operator_of(byte) {
                Some(operator) => Move::Go(self.at_stage(Stage::InOperator(operator))),
                None => Move::Refuse,
            },
        }
    }

    fn in_operator(self, operator: Operator, byte: u8, at: usize) -> Move
        requires { at + 1 < 2 ^ 64 }
        ensures { result ≡ operator_end_move self operator byte at }
    {
        if byte == b'=' {
            Move::Go(Scan {
                stage: Stage::InValue(operator),
                value: at + 1,
                ..self
            })
        } else {
            Move::Refuse
        }
    }

    fn in_value(self, operator: Operator, byte: u8) -> Move
        ensures { result ≡ value_move self operator byte }
    {
        match byte {
            b')' => Move::End(operator),
            b'(' => Move::Refuse,
            b'\\' => Move::Go(self.at_stage(Stage::InEscape(operator))),
            _ => Move::Go(self),
        }
    }

    /// What the byte at this place means.
    pub(crate) fn turn(self, text: &[u8], at: usize) -> Move
        requires inside { at < length text.now }
        requires scan { IsScanAt at self }
        ensures turns { turn_in text.now at self result ≡ turn (part_in text.now at self) (slice_index text.now at) }
        ensures keeps { Keeps (at + 1) result }
    {
        let byte = text[at];
        match self.stage {
            Stage::Outside => self.outside(byte),
            Stage::Opened => self.opened(byte, at),
            Stage::InAttribute(group) => self.in_attribute(group, byte, at),
            Stage::InOperator(operator) => self.in_operator(operator, byte, at),
            Stage::InValue(operator) => self.in_value(operator, byte),
            Stage::InEscape(operator) => Move::Go(self.at_stage(Stage::InValue(operator))),
        }
    }
}
