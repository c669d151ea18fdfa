//! The shapes of a picture, and its legend: the same in each.

/// How things look, on a light ground and on a dark one, and the shape of each sign. The colours of the
/// nodes are those of Paul Tol's light scheme, which colour-blind readers tell apart; no sign is known
/// by its colour alone.
pub const SHAPES: &str = "\
<style>
text{font:11px system-ui,-apple-system,'Segoe UI','DejaVu Sans',sans-serif;fill:#1d2125}
.big{font-size:17px;font-weight:600}.said{text-anchor:end;font-weight:600}.soft{fill:#59626b}
.name{font-size:10px;paint-order:stroke;stroke:#fff;stroke-width:3px;stroke-linejoin:round}
.bg{fill:#fff}.lane{stroke:#c3c9cf;fill:none}.dot{fill:#98a2ab}.tick{stroke:#8a939c;fill:none}
.solid,.flag{fill:#1d2125}.flag{stroke:#1d2125}.hollow{fill:#fff;stroke:#1d2125;stroke-width:1.5}
.cross{stroke:#1d2125;stroke-width:2;fill:none}
.news{stroke:#1d2125;stroke-width:1.2;fill:none;marker-end:url(#head)}
.same{stroke:#98a2ab;stroke-dasharray:2 2;fill:none}
.calls{stroke:#c3c9cf;stroke-width:2;fill:none}.runs{stroke:#1d2125;stroke-width:2;fill:none}
.own0{fill:#77AADD}.own1{fill:#EE8866}.own2{fill:#EEDD88}.own3{fill:#FFAABB}
.own4{fill:#99DDFF}.own5{fill:#44BB99}.own6{fill:#BBCC33}.own7{fill:#AAAA00}
.way0{fill:url(#h0)}.way1{fill:url(#h1)}.way2{fill:url(#h2)}.way3{fill:url(#h3)}
.way4{fill:url(#h4)}.way5{fill:url(#h5)}.way6{fill:url(#h6)}.way7{fill:url(#h7)}
[class^=own],[class^=way]{stroke:#fff;stroke-width:.5}.spent{fill:#66707a}
.count{stroke:#1d2125;stroke-dasharray:4 3;fill:none}.end{text-anchor:end;fill:#59626b}.strong{font-weight:600}
.stop{fill:#c8102e}.no{fill:#b00d28;font-weight:600;paint-order:stroke;stroke:#fff;stroke-width:3px}
.mark{stroke:#fff;stroke-width:2;fill:none}
@media (prefers-color-scheme:dark){
text{fill:#e6e9ec}.soft,.end{fill:#a3acb5}.bg{fill:#14171a}[class^=own],[class^=way]{stroke:#14171a}.count{stroke:#e6e9ec}
.lane{stroke:#59626b}.name,.no{stroke:#14171a}
.solid,.flag{fill:#e6e9ec}.flag,.cross,.news,.runs{stroke:#e6e9ec}.hollow{fill:#14171a;stroke:#e6e9ec}
.same{stroke:#7a838c}.calls{stroke:#4b5259}.no{fill:#ff8a94}}
</style>
<defs>
<marker id='head' viewBox='0 0 8 8' refX='11' refY='4' markerWidth='7' markerHeight='7' orient='auto'><path class='solid' d='M0 0l8 4l-8 4z'/></marker>
<rect id='n0' x='-5' y='-5' width='10' height='10' fill='#77AADD'/>
<rect id='n1' x='-5' y='-5' width='10' height='10' fill='#EE8866'/>
<rect id='n2' x='-5' y='-5' width='10' height='10' fill='#EEDD88'/>
<rect id='n3' x='-5' y='-5' width='10' height='10' fill='#FFAABB'/>
<rect id='n4' x='-5' y='-5' width='10' height='10' fill='#99DDFF'/>
<rect id='n5' x='-5' y='-5' width='10' height='10' fill='#44BB99'/>
<rect id='n6' x='-5' y='-5' width='10' height='10' fill='#BBCC33'/>
<rect id='n7' x='-5' y='-5' width='10' height='10' fill='#AAAA00'/>
<pattern id='h0' width='5' height='5' patternUnits='userSpaceOnUse' patternTransform='rotate(45)'><rect class='bg' width='5' height='5'/><rect width='3' height='5' fill='#77AADD'/></pattern>
<pattern id='h1' width='5' height='5' patternUnits='userSpaceOnUse' patternTransform='rotate(45)'><rect class='bg' width='5' height='5'/><rect width='3' height='5' fill='#EE8866'/></pattern>
<pattern id='h2' width='5' height='5' patternUnits='userSpaceOnUse' patternTransform='rotate(45)'><rect class='bg' width='5' height='5'/><rect width='3' height='5' fill='#EEDD88'/></pattern>
<pattern id='h3' width='5' height='5' patternUnits='userSpaceOnUse' patternTransform='rotate(45)'><rect class='bg' width='5' height='5'/><rect width='3' height='5' fill='#FFAABB'/></pattern>
<pattern id='h4' width='5' height='5' patternUnits='userSpaceOnUse' patternTransform='rotate(45)'><rect class='bg' width='5' height='5'/><rect width='3' height='5' fill='#99DDFF'/></pattern>
<pattern id='h5' width='5' height='5' patternUnits='userSpaceOnUse' patternTransform='rotate(45)'><rect class='bg' width='5' height='5'/><rect width='3' height='5' fill='#44BB99'/></pattern>
<pattern id='h6' width='5' height='5' patternUnits='userSpaceOnUse' patternTransform='rotate(45)'><rect class='bg' width='5' height='5'/><rect width='3' height='5' fill='#BBCC33'/></pattern>
<pattern id='h7' width='5' height='5' patternUnits='userSpaceOnUse' patternTransform='rotate(45)'><rect class='bg' width='5' height='5'/><rect width='3' height='5' fill='#AAAA00'/></pattern>
<path id='set' class='flag' d='M0 0v-20l8 4l-8 3'/>
<path id='removed' class='cross' d='M0 0v-20m-4 1l8 7m0 -7l-8 7'/>
<path id='loaded' class='flag' d='M0 0v-20l8 4l-8 3m0 1l8 3l-8 3'/>
<circle id='unset' class='dot' r='2'/>
<path id='none' class='tick' d='M0 -4v8'/>
<circle id='off' class='hollow' r='4'/>
<path id='return' class='solid' d='M-5 0l9 -5v10z'/>
<rect id='sleep' class='solid' x='-4' y='-4' width='8' height='8'/>
<path id='panic' class='cross' d='M-4 -4l8 8m0 -8l-8 8'/>
<circle id='print' class='solid' r='4'/>
<path id='pause' class='cross' d='M-2 -4v8m4 0v-8'/>
<path id='yield' class='solid' d='M-5 0l5 -5l5 5l-5 5z'/>
<rect id='delay' class='hollow' x='-4' y='-4' width='8' height='8'/>
<path id='sent' class='cross' d='M-2 -4l4 4l-4 4'/>
<path id='granted' class='cross' d='M-4 0h8m-4 -4v8'/>
<circle id='emitted' class='dot' r='1'/>
<circle id='news' class='solid' r='2'/>
<circle id='same' class='dot' r='1'/>
<g id='stuck'><path class='stop' d='M-3 -7h6l4 4v6l-4 4h-6l-4 -4v-6z'/><path class='mark' d='M0 -4v5m0 1v2'/></g>
<path id='wrong' class='stop' d='M0 -6l-6 -10h12z'/>
</defs>
<rect class='bg' width='1000' height='100%'/>
";

/// What the signs are.
pub const LEGEND: &str = "\
<use href='#panic' x='18' y='14'/><text class='soft' x='31' y='18'>panic</text>
<use href='#return' x='88' y='14'/><text class='soft' x='101' y='18'>return</text>
<use href='#sleep' x='164' y='14'/><text class='soft' x='177' y='18'>sleep</text>
<use href='#print' x='234' y='14'/><text class='soft' x='247' y='18'>print</text>
<use href='#off' x='304' y='14'/><text class='soft' x='317' y='18'>off</text>
<use href='#delay' x='361' y='14'/><text class='soft' x='374' y='18'>delay</text>
<use href='#pause' x='431' y='14'/><text class='soft' x='444' y='18'>pause</text>
<use href='#yield' x='501' y='14'/><text class='soft' x='514' y='18'>yield</text>
<use href='#none' x='571' y='14'/><text class='soft' x='584' y='18'>pass, no term ran</text>
<use href='#unset' x='717' y='14'/><text class='soft' x='730' y='18'>point not set</text>
<use href='#set' x='838' y='22'/><text class='soft' x='851' y='18'>set</text>
<use href='#removed' x='895' y='22'/><text class='soft' x='908' y='18'>removed</text>
<use href='#loaded' x='18' y='40'/><text class='soft' x='31' y='36'>load</text>
<use href='#sent' x='81' y='32'/><text class='soft' x='94' y='36'>rights sent</text>
<use href='#granted' x='189' y='32'/><text class='soft' x='202' y='36'>granted</text>
<path class='news' d='M265 28L283 34'/><text class='soft' x='284' y='36'>message with news</text>
<path class='same' d='M411 28L425 34'/><text class='soft' x='430' y='36'>nothing new</text>
<use href='#stuck' x='525' y='32'/><text class='soft' x='538' y='36'>waits forever</text>
<text class='soft' x='12' y='52'>Left to right is an order that the messages allow, not time: a call is drawn as far left as its dependencies allow. Dark bars: evaluations that ran a term.</text>
<path class='spent' d='M12 60h12v9h-12z'/><text class='soft' x='30' y='68'>rights spent</text>
<path class='own0' d='M160 60h12v9h-12z'/><text class='soft' x='178' y='68'>held by the node of this color</text>
<path class='way0' d='M372 60h12v9h-12z'/><text class='soft' x='390' y='68'>in transit to it</text>
<path class='count' d='M542 65h18'/><text class='soft' x='566' y='68'>the count; what is above was granted</text>
";
