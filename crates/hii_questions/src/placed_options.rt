//! Some options of a package, one after the other.

ghost use Rattle.ifr_nodes.specs.Accepted.{IsAccepted};
ghost use Rattle.ifr_nodes.specs.code.Checked.{IsAccepted-prop};
ghost use Rattle.hii_values.specs.code.OptionPlaces.{AreOptions, AreOptions-prop};

use ifr_scopes::OptionView;

/// The options that are left of some of a package.
#[derive(Drop)]
pub struct PlacedOptions<'p, 'a> {
    pub(crate) ifr: &'a [u8],
    pub(crate) places: &'p [u32],
    // At which position of the index the first is looked for first.
    pub(crate) position: u32,
    pub ghost accepted: { IsAccepted ifr.now } by { IsAccepted-prop ifr.now },
    pub ghost there: { AreOptions ifr.now places.now } by { AreOptions-prop ifr.now places.now },
}

impl<'p, 'a> Iterator for PlacedOptions<'p, 'a> {
    ghost use Rattle.std.specs.Iterator.{YieldsFirstBy, item_count};
    ghost use Rattle.ifr_scopes.specs.code.Parts.{option_node};
    ghost use Rattle.hii_questions.specs.code.PlacedLeft.{placed_left};

    type Item = OptionView<'a>;

    ghost next_gives = { YieldsFirstBy option_node placed_left };

    ghost remaining = { item_count placed_left };

    fn next(&mut self) -> Option<OptionView<'a>> {
        match self.places {
            [place, places @ ..] => {
                let position = self.position;
                self.places = places;
                self.position = position.wrapping_add(1);
                Some(OptionView::at(self.ifr, *place, position))
            }
            [] => None,
        }
    }
}
