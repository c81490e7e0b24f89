//! Laws of pictures: the definition means what it should. Each function has an empty body, and its
//! contract is the law.
ghost use Rattle.epx_picture.specs.PictureLaws.{FurtherStepsAddNothing, PictureAroundExists};
ghost use Rattle.epx_picture.specs.PictureLaws.{PictureAroundIsUnique, PictureAroundIsWhole};
ghost use Rattle.epx_picture.specs.PictureLaws.{PictureExists, PictureIsUnique};

/// A committed map has a picture.
pub fn picture_exists()
    ensures { PictureExists }
{}

/// A committed map has at most one picture.
pub fn picture_is_unique()
    ensures { PictureIsUnique }
{}

/// In a committed map there is a picture around each instance.
pub fn picture_around_exists()
    ensures { PictureAroundExists }
{}

/// There is at most one picture around an instance.
pub fn picture_around_is_unique()
    ensures { PictureAroundIsUnique }
{}

/// Where everything lies within the steps, the picture around an instance is that of the map.
pub fn picture_around_is_whole()
    ensures { PictureAroundIsWhole }
{}

/// Where one step more adds nothing to a picture around an instance, no number of steps does.
pub fn further_steps_add_nothing()
    ensures { FurtherStepsAddNothing }
{}
