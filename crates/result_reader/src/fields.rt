//! The fields of a line.
ghost use Rattle.std.specs.Prelude.{◌≡◌};
ghost use Rattle.std.specs.Result.{result_map_both};
ghost use Rattle.water_text.specs.Fields.{pieces_after};
ghost use Rattle.result_reader.specs.Reading as reading;

use crate::bad_line::BadLine;
use water_text::amount::read_plain;
use water_text::fields::cut;
use water_text::month::Month;
use water_text::name::is_name;

/// Makes sure that there is no field.
pub fn no_field(rest: Option<&[u8]>) -> Result<(), BadLine>
    ensures { result ≡ reading.no_field (pieces_after rest.entry) }
{
    match rest {
        None => Ok(()),
        Some(_) => Err(BadLine::BadField),
    }
}

/// The only field.
pub fn one_field(rest: Option<&[u8]>) -> Result<&[u8], BadLine>
    ensures { result_map_both (λ field. field.now) (λ e. e) result
        ≡ reading.one_field (pieces_after rest.entry) }
{
    let Some(text) = rest else {
        return Err(BadLine::BadField);
    };
    let (field, rest) = cut(text);
    no_field(rest)?;
    Ok(field)
}

/// The two fields.
pub fn two_fields(rest: Option<&[u8]>) -> Result<(&[u8], &[u8]), BadLine>
    ensures { result_map_both (λ fields. (fields.0.now, fields.1.now)) (λ e. e) result
        ≡ reading.two_fields (pieces_after rest.entry) }
{
    let Some(text) = rest else {
        return Err(BadLine::BadField);
    };
    let (first, rest) = cut(text);
    let second = one_field(rest)?;
    Ok((first, second))
}

/// The three fields.
pub fn three_fields(rest: Option<&[u8]>) -> Result<(&[u8], &[u8], &[u8]), BadLine>
    ensures { result_map_both (λ fields. (fields.0.now, fields.1.now, fields.2.now)) (λ e. e) result
        ≡ reading.three_fields (pieces_after rest.entry) }
{
    let Some(text) = rest else {
        return Err(BadLine::BadField);
    };
    let (first, rest) = cut(text);
    let (second, third) = two_fields(rest)?;
    Ok((first, second, third))
}

/// The name that a field is.
pub fn name_field(field: &[u8]) -> Result<&[u8], BadLine>
    ensures { result_map_both (λ name. name.now) (λ e. e) result ≡ reading.name_field field.now }
{
    if is_name(field) {
        Ok(field)
    } else {
        Err(BadLine::BadField)
    }
}

/// The month that a field spells.
pub fn month_field(field: &[u8]) -> Result<Month, BadLine>
    ensures { result ≡ reading.month_field field.now }
{
    Month::read(field).ok_or(BadLine::BadField)
}

/// The amount that a field spells.
pub fn amount_field(field: &[u8]) -> Result<u64, BadLine>
    ensures { result ≡ reading.amount_field field.now }
{
    read_plain(field, 1_000_000_000_000_000).ok_or(BadLine::BadField)
}

/// The number of months that a field spells.
pub fn count_field(field: &[u8]) -> Result<u32, BadLine>
    ensures { result ≡ reading.count_field field.now }
{
    match read_plain(field, 1_200) {
        Some(count) if count > 0 => Ok(count as u32),
        _ => Err(BadLine::BadField),
    }
}
