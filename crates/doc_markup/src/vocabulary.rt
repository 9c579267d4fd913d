//! The elements, attributes, classes and path commands that markup is made of.
ghost use Rattle.std.specs.Prelude.{◌≡◌};
ghost use Rattle.doc_markup.specs.Vocabulary.{attribute_name, class_name, command_text, tag_name};

/// An element.
#[derive(Clone, Copy)]
pub enum Tag {
    A,
    Circle,
    Code,
    Dd,
    Div,
    Dl,
    Dt,
    H2,
    Li,
    P,
    Path,
    Pre,
    Rect,
    Svg,
    Text,
    Ul,
}

impl Tag {
    /// The element's name.
    pub fn name(self) -> &'static str
        ensures { result.now ≡ tag_name self }
    {
        match self {
            Tag::A => "a",
            Tag::Circle => "circle",
            Tag::Code => "code",
            Tag::Dd => "dd",
            Tag::Div => "div",
            Tag::Dl => "dl",
            Tag::Dt => "dt",
            Tag::H2 => "h2",
            Tag::Li => "li",
            Tag::P => "p",
            Tag::Path => "path",
            Tag::Pre => "pre",
            Tag::Rect => "rect",
            Tag::Svg => "svg",
            Tag::Text => "text",
            Tag::Ul => "ul",
        }
    }
}

/// An attribute whose value is a number or a list of numbers.
#[derive(Clone, Copy)]
pub enum Attribute {
    CenterX,
    CenterY,
    Commands,
    CornerRadius,
    Height,
    Radius,
    TextLength,
    ViewBox,
    Width,
    X,
    Y,
}

impl Attribute {
    /// The attribute's name.
    pub fn name(self) -> &'static str
        ensures { result.now ≡ attribute_name self }
    {
        match self {
            Attribute::CenterX => "cx",
            Attribute::CenterY => "cy",
            Attribute::Commands => "d",
            Attribute::CornerRadius => "rx",
            Attribute::Height => "height",
            Attribute::Radius => "r",
            Attribute::TextLength => "textLength",
            Attribute::ViewBox => "viewBox",
            Attribute::Width => "width",
            Attribute::X => "x",
            Attribute::Y => "y",
        }
    }
}

/// A class, by which the style sheet selects elements.
#[derive(Clone, Copy)]
pub enum Class {
    Builtin,
    Call,
    Diagram,
    End,
    Group,
    Label,
    Modifier,
    Scroll,
    Terminal,
    Warning,
}

impl Class {
    /// The class's name.
    pub fn name(self) -> &'static str
        ensures { result.now ≡ class_name self }
    {
        match self {
            Class::Builtin => "builtin",
            Class::Call => "call",
            Class::Diagram => "diagram",
            Class::End => "end",
            Class::Group => "group",
            Class::Label => "label",
            Class::Modifier => "modifier",
            Class::Scroll => "scroll",
            Class::Terminal => "terminal",
            Class::Warning => "warning",
        }
    }
}

/// A command of a path, or what separates two numbers.
#[derive(Clone, Copy)]
pub enum PathCommand {
    MoveTo,
    HorizontalTo,
    VerticalTo,
    CurveTo,
    Separator,
}

impl PathCommand {
    /// The command as it is written.
    pub fn text(self) -> &'static str
        ensures { result.now ≡ command_text self }
    {
        match self {
            PathCommand::MoveTo => "M",
            PathCommand::HorizontalTo => "H",
            PathCommand::VerticalTo => "V",
            PathCommand::CurveTo => "Q",
            PathCommand::Separator => " ",
        }
    }
}
