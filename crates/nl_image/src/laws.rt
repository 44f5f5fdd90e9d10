//! What the definitions of images mean, as contracts of functions that do nothing.
ghost use Rattle.nl_image.specs.Laws.{ImagesAreSpelled, ImagesHaveNoFault, ImagesHaveOneParts, OneFailsFirst, PresentMarkStays, StoreImagesAreImages, StoreImagesTellPages, StoresHaveOneImage};

/// An image fails no condition first, and other bytes fail one first at most.
pub fn one_condition_fails_first()
    ensures none { ImagesHaveNoFault }
    ensures one { OneFailsFirst }
{}

/// An image is the bytes of its parts and of its blocks, and no others.
pub fn images_are_spelled()
    ensures { ImagesAreSpelled }
{}

/// An image has one list of parts.
pub fn images_have_one_list_of_parts()
    ensures { ImagesHaveOneParts }
{
    nl_layout::laws::bytes_spell_one_value();
    nl_dat::laws::bytes_spell_one_entry();
}

/// A store, and checkpoints kept over it, have one image, which tells the pages under the store's numbers.
pub fn store_images_tell_the_store()
    ensures one { StoresHaveOneImage }
    ensures pages { StoreImagesTellPages }
{}

/// The image of a store has the present mark.
pub fn store_images_have_the_present_mark()
    ensures { PresentMarkStays }
{}

/// The image of a store, and of checkpoints kept over it, is one.
pub fn store_images_are_images()
    ensures { StoreImagesAreImages }
{}
