// The versions of a path, as they are found one by one: at most 64, ascending, each once.
ghost use Rattle.std.specs.Prelude.{◌≡◌, map, length, if◌then◌else◌, is_ok, nat_le};
ghost use Rattle.std.specs.Option.{option_map};
ghost use Rattle.rules.specs.Questions.{told};
ghost use Rattle.rules.specs.Rows.{own};
ghost use Rattle.rules.specs.Slices.{blank_version};
ghost use Rattle.rules.specs.Tables.{keep, entered};
ghost use Rattle.rules.specs.Versions.{version_order};
ghost use Rattle.versions.specs.Values.{plain_version_bytes};
ghost use Rattle.modules.specs.Tables.{listing_bytes};
ghost use Rattle.source.specs.Answers.{answer_of};
ghost use Rattle.bottoms.specs.Items.{entered_held, listing_answer};

use causes::cause::Cause;
use modules::listing::Listing;
use ordered::table::NotInserted;
use source::fault::{Fault, Found};
use source::slices::{check_room, lay, refuse};
use versions::version::PlainVersion;

// Enters a version, if one is held. Where there is no room for it nothing changes.
pub fn list_held(listing: &mut Listing, held: Option<PlainVersion>) -> Result<(), NotInserted>
    ensures value { is_ok result ≡ nat_le (length (entered_held (option_map plain_version_bytes held) (listing_bytes listing.old))) 64 }
    ensures after { listing_bytes listing.new ≡ (if is_ok result then entered_held (option_map plain_version_bytes held) (listing_bytes listing.old) else listing_bytes listing.old) }
{
    let Some(version) = held else {
        return Ok(());
    };
    // Kept: in one arm for both answers that mean success, what each of them promised would be lost.
    match listing.add(version) {
        Ok(()) => Ok(()),
        Err(NotInserted::Present) => Ok(()),
        Err(NotInserted::Full) => Err(NotInserted::Full),
    }
}

// Answers a question for versions: with a listing, or, where none was to be made, that there are too many.
pub fn answer_listing(
    listing: Option<Listing>,
    versions: &mut [PlainVersion],
) -> Result<Found, Fault>
    ensures value { answer_of result ≡ (told blank_version (length versions.old) (listing_answer (option_map listing_bytes listing))).answer }
    ensures items { map plain_version_bytes versions.new ≡ (told blank_version (length versions.old) (listing_answer (option_map listing_bytes listing))).slice }
{
    let blank = PlainVersion::blank();
    check_room(versions, blank)?;
    let Some(listing) = listing else {
        return refuse(versions, blank, Cause::TooManyToList);
    };
    let listed = listing.as_slice();
    lay(versions, listed, blank);
    Ok(Found {
        count: listed.len(),
    })
}
