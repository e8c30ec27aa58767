ghost use Rattle.dr_like.specs.Fits.{FindsAllThatFit, FindsOnlyWhatFits};

/// Wherever there is a way that a text fits a pattern of `like`, it is found to fit.
pub fn what_fits_is_found()
    ensures { FindsAllThatFit }
{}

/// Wherever a text is found to fit a pattern of `like`, there is a way that it fits.
pub fn what_is_found_fits()
    ensures { FindsOnlyWhatFits }
{}
