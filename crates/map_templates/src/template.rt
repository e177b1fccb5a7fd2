//! The templates, by their names.

ghost use Rattle.std.specs.Prelude.{◌≡◌};
ghost use Rattle.map_templates.specs.Templates.{template_named, summary_text};

use arr_core::Keyword;

/// What a local operation makes of the two values at a location.
#[derive(Clone, Copy, PartialEq, Eq)]
pub enum LocalOperation {
    Sum,
    Difference,
    Product,
    Maximum,
    Minimum,
}

/// What a focal or a zonal operation makes of the values of a set of locations.
#[derive(Clone, Copy, PartialEq, Eq)]
pub enum Summary {
    Sum,
    Maximum,
    Minimum,
}

/// A template. (C. D. Tomlin, Geographic Information Systems and Cartographic Modeling, 1990.)
#[derive(Clone, Copy, PartialEq, Eq)]
pub enum Template {
    /// Of the two values at each location.
    Local(LocalOperation),
    /// Of the values at the locations near each location.
    Focal(Summary),
    /// Of the values at the locations in the zone of each location.
    Zonal(Summary),
}

/// The template of that name.
pub fn template_named(name: &str) -> Option<Template>
    ensures { result ≡ template_named name.now }
{
    match name {
        "LocalSum" => Some(Template::Local(LocalOperation::Sum)),
        "LocalDifference" => Some(Template::Local(LocalOperation::Difference)),
        "LocalProduct" => Some(Template::Local(LocalOperation::Product)),
        "LocalMaximum" => Some(Template::Local(LocalOperation::Maximum)),
        "LocalMinimum" => Some(Template::Local(LocalOperation::Minimum)),
        "FocalSum" => Some(Template::Focal(Summary::Sum)),
        "FocalMaximum" => Some(Template::Focal(Summary::Maximum)),
        "FocalMinimum" => Some(Template::Focal(Summary::Minimum)),
        "ZonalSum" => Some(Template::Zonal(Summary::Sum)),
        "ZonalMaximum" => Some(Template::Zonal(Summary::Maximum)),
        "ZonalMinimum" => Some(Template::Zonal(Summary::Minimum)),
        _ => None,
    }
}

impl Summary {
    /// How a query writes it behind `condense`.
    pub fn text(&self) -> &str
        ensures { result.now ≡ summary_text self.now }
    {
        match self {
            Summary::Sum => "+",
            Summary::Maximum => Keyword::Max.text(),
            Summary::Minimum => Keyword::Min.text(),
        }
    }
}
