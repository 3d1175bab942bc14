//! The lines that are due in each month.
ghost use Rattle.std.specs.Prelude.{◌≡◌, ◌<◌, ◌++◌, IfOk, OnOk};
ghost use Rattle.std.specs.List.{flat_map};
ghost use Rattle.std.specs.Option.{option_to_list};
ghost use Rattle.rights_roll.specs.Rolls.{IsRollOf};
ghost use Rattle.water_model.specs.Entries.{count_in};
ghost use Rattle.result_lines.specs.Quantities.{AreReturnedTo};
ghost use Rattle.result_lines.specs.Text.{section_space};
ghost use Rattle.water_model.specs.Valid.{IsValidBasin};
ghost use Rattle.result_lines.specs.declared.item.TheConstants.{SECTIONS};
ghost use Rattle.result_reader.specs.Form.{due_in_month, shapes_at, shapes_in};

use crate::shape::Shape;
use result_lines::item::{SECTIONS, Section};
use result_lines::quantity::returned_to;
use rights_roll::roll::Roll;
use std::alloc::{AllocError, Global};
use water_model::calls::taking_node;
use water_model::space::{count_in, entry_at};
use water_model::types::Basin;

/// The line that is due for an entry of a section, if one is.
fn shape_at(section: Section, basin: &Basin, returned: &[bool], entry: u32) -> Option<Shape>
    requires basin { IsValidBasin basin.now }
    requires returned { AreReturnedTo basin.now returned.now }
    requires entry { entry < count_in (section_space section) basin.now }
    ensures { option_to_list result ≡ shapes_at section basin.now entry }
{
    match section {
        Section::Amounts(quantity) => {
            if !quantity.has_line(basin, returned, entry) {
                return None;
            }
            Some(Shape::Amount { quantity, entry })
        }
        Section::Deliveries => Some(Shape::Deliver { right: entry }),
        Section::Calls => Some(Shape::Call { right: entry }),
        Section::Called => {
            if taking_node(basin, entry).is_none() {
                return None;
            }
            Some(Shape::Called { right: entry })
        }
    }
}

/// Adds the line that is due for an entry, if one is.
fn add_entry(
    dues: &mut Vec<Shape>,
    basin: &Basin,
    returned: &[bool],
    section: Section,
    entry: u32,
) -> Result<(), AllocError>
    requires basin { IsValidBasin basin.now }
    requires returned { AreReturnedTo basin.now returned.now }
    requires entry { entry < count_in (section_space section) basin.now }
    ensures { OnOk result (dues.new.items ≡ dues.old.items ++ shapes_at section basin.now entry) }
{
    if let Some(shape) = shape_at(section, basin, returned, entry) {
        dues.push(shape)?;
    }
    Ok(())
}

/// Adds the lines of a section.
fn add_section(
    dues: &mut Vec<Shape>,
    basin: &Basin,
    roll: &Roll,
    returned: &[bool],
    section: Section,
) -> Result<(), AllocError>
    requires basin { IsValidBasin basin.now }
    requires roll { IsRollOf basin.now.rights roll.now }
    requires returned { AreReturnedTo basin.now returned.now }
    ensures { OnOk result (dues.new.items ≡ dues.old.items ++ shapes_in section basin.now) }
{
    let space = section.space();
    let count = count_in(space, basin);
    for position in 0..count {
        let entry = entry_at(space, basin, roll.by_seniority(), position);
        add_entry(dues, basin, returned, section, entry)?;
    }
    Ok(())
}

/// The lines of all sections that are due in each month.
fn sections_of(alloc: Global, basin: &Basin, roll: &Roll) -> Result<Vec<Shape>, AllocError>
    requires basin { IsValidBasin basin.now }
    requires roll { IsRollOf basin.now.rights roll.now }
    ensures { IfOk result (λ dues. dues.items ≡ flat_map (λ section. shapes_in section basin.now) SECTIONS) }
{
    let returned = returned_to(basin);
    let mut dues = Vec::new(alloc);
    for section in SECTIONS.iter() {
        add_section(&mut dues, basin, roll, &returned, *section)?;
    }
    Ok(dues)
}

/// The lines that are due in each month, after its `month` line.
#[tactic(auto, unfolding(crate::specs::Form::due_in_month))]
pub fn dues_of(alloc: Global, basin: &Basin, roll: &Roll) -> Result<Vec<Shape>, AllocError>
    requires basin { IsValidBasin basin.now }
    requires roll { IsRollOf basin.now.rights roll.now }
    ensures { IfOk result (λ dues. dues.items ≡ due_in_month basin.now) }
{
    let mut dues = sections_of(alloc, basin, roll)?;
    dues.push(Shape::End)?;
    Ok(dues)
}
